ghost use Rattle.crate_form.specs.Laws.{EmittedByTree, EmittedHasForm, OneHasForm};

/// The emitted crate is the one that has the form which the rows of the description ask for, block by block and
/// register by register. It is told by the description's tree.
pub fn form_law()
    ensures is { EmittedHasForm }
    ensures one { OneHasForm }
    ensures tree { EmittedByTree }
{}
