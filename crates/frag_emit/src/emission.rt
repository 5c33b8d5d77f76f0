ghost use Rattle.std.specs.Prelude.{◌≡◌, true, IfOk};
ghost use Rattle.crate_form.specs.Forms.{HasForm};
ghost use Rattle.frag_emit.specs.Standing.{StandsFor};
ghost use Rattle.frag_tree.specs.Trees.{crate_tree};
ghost use Rattle.frag_tree.specs.Validity.{valid_crate};

use crate_form::crate_form;
use frag_tree::Crate;
use pac_base::NoMemory;
use std::alloc::Global;
use svd_model::Checked;

/// The crate text of a checked description, as a tree: a slot for each peripheral, and a module for each
/// peripheral, cluster and register, by the templates of the crate text. It stands for the description's
/// rows: it types, offers to scripts what the register table offers, and means what the table says.
pub fn emit(alloc: Global, state: &Checked) -> Result<Crate, NoMemory>
    ensures form { IfOk result (λ krate. HasForm state.now (crate_tree krate)) }
    ensures valid { IfOk result (λ krate. valid_crate (crate_tree krate) ≡ true) }
    ensures stands { IfOk result (λ krate. StandsFor state.now (crate_tree krate)) }
{
    let _device = state.device();
    crate_form(alloc, state)
}
