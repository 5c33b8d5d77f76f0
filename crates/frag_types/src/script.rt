ghost use Rattle.std.specs.Prelude.{◌≡◌, IfOk, IfErr, None, [], option_map};
ghost use Rattle.frag_index.specs.Sites.{IsIndex};
ghost use Rattle.frag_sem.specs.PlaceTyping.{module_fault, module_scope};
ghost use Rattle.frag_sem.specs.ScriptTyping.{lines_fault, script_fault};
ghost use Rattle.frag_sem.specs.TextSurface.{text_surface};
ghost use Rattle.frag_tree.specs.Trees.{crate_tree};
ghost use Rattle.frag_types.specs.Refusals.{IsScriptRefusal};
ghost use Rattle.frag_types.specs.Lines.{fault_seen};

use crate::statement::{bind, statement_types};
use crate::typed::{TypedCrate, TypedScript};
use frag_index::Index;
use frag_rules::Named;
use frag_script::{ScriptFault, ScriptTyping};
use frag_tree::{Crate, Script};
use pac_base::{Back, NoMemory};
use std::alloc::Global;

/// The first line that doesn't type, and why.
#[derive(Clone, Copy)]
pub(crate) struct Unfit {
    line: u32,
    kind: ScriptTyping,
}

/// The first line of a script that doesn't type.
fn first_unfit(alloc: Global, index: &Index<'_>, script: &Script) -> Result<Option<Unfit>, NoMemory>
    requires { IsIndex index.now }
    ensures { IfOk result (λ unfit. option_map fault_seen unfit ≡ module_fault (crate_tree index.now.krate.now) script.now) }
{
    let mut bound = Named::new(alloc);
    let mut rest = script.lines.as_slice();
    while let Some((first, others)) = rest.split_first() {
        match statement_types(index, &bound, &first.statement) {
            Ok(read) => bind(&mut bound, &first.statement, read)?,
            Err(kind) => {
                return Ok(Some(Unfit {
                    line: first.line,
                    kind,
                }));
            }
        }
        rest = others;
    }
    Ok(None)
}

/// The first line of a script that doesn't type, against the index of a crate that is made for it.
fn unfit_line(alloc: Global, krate: &Crate, script: &Script) -> Result<Option<Unfit>, NoMemory>
    ensures { IfOk result (λ unfit. option_map fault_seen unfit ≡ module_fault (crate_tree krate.now) script.now) }
{
    let index = Index::new(alloc, krate)?;
    first_unfit(alloc, &index, script)
}

/// The script as one that fits the crate: each of its statements types against the surface of the crate.
/// Else it comes back with `Typing`, whose line is the first that doesn't type, and whose kind is that of
/// the leftmost word of that line at which a rule fails; want of memory is the one other refusal.
pub fn type_script(
    alloc: Global,
    krate: &TypedCrate,
    script: Script,
) -> Result<TypedScript, Back<Script, ScriptFault>>
    ensures same { IfOk result (λ typed. typed ≡ script) }
    ensures fits { IfOk result (λ typed. script_fault (text_surface (crate_tree krate.now)) script ≡ None) }
    ensures kept { IfErr result (λ back. back.state ≡ script) }
    ensures fault { IfErr result (λ back. IsScriptRefusal (script_fault (text_surface (crate_tree krate.now)) script) back.fault) }
{
    match unfit_line(alloc, krate.krate(), &script) {
        Ok(None) => Ok(TypedScript::new(script)),
        Ok(Some(unfit)) => Err(Back {
            state: script,
            fault: ScriptFault::Typing {
                line: unfit.line,
                kind: unfit.kind,
            },
        }),
        Err(_) => Err(Back {
            state: script,
            fault: ScriptFault::Memory,
        }),
    }
}
