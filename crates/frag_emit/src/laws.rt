ghost use Rattle.frag_emit.specs.Laws.{FormStands};

/// Each crate text of the form that a checked description asks for stands for the description.
pub fn headline_law()
    ensures { FormStands }
{}
