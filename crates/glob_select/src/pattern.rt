ghost use Rattle.std.specs.Prelude.{◌≡◌, IfOk, IfErr, List, option_map};
ghost use Rattle.glob_select.specs.Items.{Item};
ghost use Rattle.glob_select.specs.Matching.{matches};
ghost use Rattle.glob_select.specs.Naming.{without_open};
ghost use Rattle.glob_select.specs.Spelling.{SpellsPattern};
ghost use Rattle.glob_select.specs.Refusals.{RefusedFor};
ghost use Rattle.glob_select.specs.Reading.{alternatives_of};
ghost use Rattle.glob_select.specs.declared.pattern.PatternFault.TheVariants.{Memory};

use crate::alternative::{after_led, after_spaces, is_last, led_at, left_over};
use crate::matching::fits;
use crate::naming::{has_one_open, plain_text};
use std::alloc::{AllocError, Global};
use std::marker::Model;
use std::rc::RcSlice;
use thiserror::Error;

/// A pattern of names. Contracts see it as its alternatives, each a list of items. Copies of a pattern share its text.
#[derive(Debug, Drop)]
pub struct Pattern {
    text: RcSlice<u8>,
}

impl Model for Pattern {
    ghost use Rattle.std.specs.Prelude.{List};
    ghost use Rattle.glob_select.specs.Items.{Item};
    ghost use Rattle.glob_select.specs.Reading.{alternatives_of};
    ghost use Rattle.std.specs.Rc.{rc_slice_items};

    ghost Value = { List (List Item) };

    ghost view = { λ pattern. alternatives_of (rc_slice_items pattern.text) };
}

/// Why a text became no pattern.
#[derive(Debug, Drop, Error)]
pub enum PatternFault {
    /// The text isn't a pattern; `at` is the byte, counted from 0, at which it stops being one.
    #[error("no pattern from byte {at} on")]
    BadPattern { at: usize },
    /// Memory was wanting.
    #[error("out of memory")]
    Memory,
}

impl From<AllocError> for PatternFault {
    ghost from_gives = { λ _ fault. fault ≡ Memory };

    fn from(_error: AllocError) -> PatternFault {
        PatternFault::Memory
    }
}

impl Pattern {
    /// The pattern that the text spells: alternatives parted by commas, spaces round each dropped,
    /// each one or more of a name byte (`A-Z a-z 0-9 _ %`), `[%s]`, `*`, `?` and a class of name
    /// bytes and rising ranges in brackets. `BadPattern` exactly where the text spells none.
    pub fn new(alloc: Global, text: &[u8]) -> Result<Pattern, PatternFault>
        ensures spelled { IfOk result (λ pattern. SpellsPattern pattern text.now) }
        ensures only { IfOk result (λ pattern. (other : List (List Item)) → SpellsPattern other text.now → other ≡ pattern) }
        ensures refused { IfErr result (λ fault. RefusedFor fault text.now) }
    {
        let last = after_led(text);
        if !is_last(last) {
            let at = text.len().saturating_sub(left_over(last).len());
            return Err(PatternFault::BadPattern { at });
        }
        Ok(Pattern {
            text: RcSlice::from_slice(alloc, text)?,
        })
    }

    /// Whether one alternative stands for the whole name. Letters match in their own case alone.
    pub fn matches(&self, name: &[u8]) -> bool
        ensures { result ≡ matches self.now name.now }
    {
        let mut rest = self.text.as_slice();
        while let Some(after) = led_at(rest) {
            if fits(after_spaces(rest), name) {
                return true;
            }
            rest = after;
        }
        fits(after_spaces(rest), name)
    }

    /// The same pattern once more, which takes no memory.
    pub fn copy(&self) -> Result<Pattern, AllocError>
        ensures { IfOk result (λ pattern. pattern ≡ self.now) }
    {
        Ok(Pattern {
            text: self.text.clone()?,
        })
    }

    /// The text of the pattern without its open item (`*`, `?` or a class). `None` where it has
    /// several alternatives, or not exactly one open item.
    pub fn without_open(&self, alloc: Global) -> Result<Option<Vec<u8>>, AllocError>
        ensures { IfOk result (λ found. option_map (λ text. text.items) found ≡ without_open self.now) }
    {
        let text = self.text.as_slice();
        if let Some(_) = led_at(text) {
            return Ok(None);
        }
        let items = after_spaces(text);
        if !has_one_open(items) {
            return Ok(None);
        }
        Ok(Some(plain_text(alloc, items)?))
    }
}
