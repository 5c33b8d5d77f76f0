ghost use Rattle.std.specs.Prelude.{◌≡◌, ◌≤◌, length, IfOk, option_map};
ghost use Rattle.std.specs.List.{prefix_len};
ghost use Rattle.svd_keys.specs.Forms.{path_of};
ghost use Rattle.svd_keys.specs.Runs.{is_part_byte, behind_mark};

use crate::form::name;
use pac_base::{NoMemory, Path, Step};
use std::alloc::Global;

fn is_part_byte(byte: u8) -> bool
    ensures { result ≡ is_part_byte byte }
{
    byte != b'.'
}

// How many bytes stand before the first dot.
fn part_len(text: &[u8]) -> usize
    ensures count { result ≡ prefix_len is_part_byte text.now }
    ensures within { result ≤ length text.now }
{
    text.iter().take_while(|byte| is_part_byte(**byte)).count()
}

// The text behind its first byte.
#[tactic(auto, unfolding(svd_keys::specs::Runs::behind_mark))]
fn behind_mark(text: &[u8]) -> Option<&[u8]>
    ensures { option_map (λ rest. rest.now) result ≡ behind_mark text.now }
{
    match text {
        [] => None,
        [_, rest @ ..] => Some(rest),
    }
}

/// Where an element is derived from: names parted by dots.
pub(crate) fn path(alloc: Global, text: &[u8]) -> Result<Option<Path>, NoMemory>
    ensures { IfOk result (λ made. made ≡ path_of text.now) }
{
    let mut steps = Path::new(alloc);
    let mut rest = text;
    'parts: loop {
        let (part, after) = rest.split_at(part_len(rest));
        match name(alloc, part)? {
            None => return Ok(None),
            Some(name) => steps.push(Step { name, index: None })?,
        }
        match behind_mark(after) {
            None => return Ok(Some(steps)),
            Some(next) => rest = next,
        }
    }
}
