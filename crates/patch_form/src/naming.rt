ghost use Rattle.std.specs.Prelude.{◌≡◌, IfOk};
ghost use Rattle.patch_form.specs.Naming.{IsArrayNameOf, IsNameOf, IsPatternOf, has_mark};

use glob_select::{Pattern, PatternFault};
use pac_base::{Name, NameFault, NoMemory};
use std::alloc::Global;
use text_scan::stripped;

/// Whether the text holds `%s`.
#[tactic(auto, unfolding(crate::specs::Naming::has_mark))]
pub fn has_mark(text: &[u8]) -> bool
    ensures { result ≡ has_mark text.now }
{
    let mut rest = text;
    while let [_, after @ ..] = rest {
        if stripped(rest, b"%s").is_some() {
            return true;
        }
        rest = after;
    }
    false
}

fn name_or_none(alloc: Global, text: &[u8]) -> Result<Option<Name>, NoMemory>
    ensures { IfOk result (λ name. IsNameOf text.now name) }
{
    match Name::new(alloc, text) {
        Ok(name) => Ok(Some(name)),
        Err(NameFault::NotAName) => Ok(None),
        Err(NameFault::Memory) => Err(NoMemory),
    }
}

fn pattern_or_none(alloc: Global, text: &[u8]) -> Result<Option<Pattern>, NoMemory>
    ensures { IfOk result (λ pattern. IsPatternOf text.now pattern) }
{
    match Pattern::new(alloc, text) {
        Ok(pattern) => Ok(Some(pattern)),
        Err(PatternFault::BadPattern { .. }) => Ok(None),
        Err(PatternFault::Memory) => Err(NoMemory),
    }
}

/// The name of an array that its pattern gives: the pattern without its one open item, and `[%s]`.
/// `None` exactly where the text gives no name.
pub fn name_of_pattern(alloc: Global, text: &[u8]) -> Result<Option<Name>, NoMemory>
    ensures { IfOk result (λ name. IsArrayNameOf text.now name) }
{
    let Some(pattern) = pattern_or_none(alloc, text)? else {
        return Ok(None);
    };
    let Some(mut plain) = pattern.without_open(alloc)? else {
        return Ok(None);
    };
    plain.extend_from_slice(b"[%s]")?;
    name_or_none(alloc, plain.as_slice())
}
