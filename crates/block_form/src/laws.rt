ghost use Rattle.block_form.specs.Laws.{AccessorsLead, BlockFits, BodiesFit, CountsAreSome, EachIsKnown, ExtentFits, ExtentIs, FitIsSound, FormIs, NamesDiffer, OneForm, PathsLead};

/// Children have one form: by offset, those of one offset as they are declared.
pub fn form_law()
    ensures is { FormIs }
    ensures one { OneForm }
{}

/// Each accessor of a block leads to the place that its child states.
pub fn layout_law()
    ensures leads { AccessorsLead }
{}

/// A block takes what its form says, which is at most 2^64 bytes, and ends in the address range where its
/// children do.
pub fn extent_law()
    ensures extent { ExtentIs }
    ensures fits { ExtentFits }
    ensures ends { BlockFits }
    ensures sound { FitIsSound }
    ensures known { EachIsKnown }
{}

/// The rules of typing that speak of one block hold of its form: names are distinct, paths name modules,
/// accessors fit the struct, counts are at least 1.
pub fn rules_law()
    ensures names { NamesDiffer }
    ensures paths { PathsLead }
    ensures bodies { BodiesFit }
    ensures counts { CountsAreSome }
{}
