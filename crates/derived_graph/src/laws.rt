ghost use Rattle.derived_graph.specs.Facts.{GraphIsDerived};
ghost use Rattle.derived_graph.specs.Laws.{GraphUnfolds};
ghost use Rattle.derived_graph.specs.Places.{TakesByPlaces};

/// The derived rows of a description are those of its graph, unfolded.
pub fn graph_law()
    ensures { GraphUnfolds }
{}

/// The keys that an element takes from its source are taken place by place.
pub fn places_law()
    ensures { TakesByPlaces }
{}

/// The graph of a described device that isn't refused unfolds to the tree of a derived one.
pub fn derived_law()
    ensures { GraphIsDerived }
{}
