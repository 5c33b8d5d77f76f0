// What orders and circles of needs mean for one another, and for values by levels.
ghost use Rattle.need_order.specs.Laws.{CircleHasBase, DepthSuffices, LevelsSuffice, OrderedHasNoCircle};

/// Where an order stands, no path of needs returns to where it began.
pub fn order_law()
    ensures { OrderedHasNoCircle }
{}

/// Where elements without a base need later ones alone, each circle of needs has an element with a base.
pub fn circle_law()
    ensures { CircleHasBase }
{}

/// Where an order stands, as many levels as there are elements are never used up, and an element needs no
/// more of them than stand below it.
pub fn levels_law<P, X>()
    ensures order { LevelsSuffice P X }
    ensures depth { DepthSuffices X }
{}
