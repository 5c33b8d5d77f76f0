ghost use Rattle.std.specs.Prelude.{◌≡◌, ℕ, List, option_map, MatchOption};
ghost use Rattle.xml_text.specs.Opening.{byte_order_mark, IsOpening};
ghost use Rattle.xml_text.specs.Reading.{unmarked, undeclared, opening_at};

use crate::gap::after_fixed;
use crate::mark::after_mark;
use text_scan::stripped;

#[tactic(auto, unfolding(crate::specs::Opening::byte_order_mark))]
fn byte_order_mark() -> &'static [u8]
    ensures { result.now ≡ byte_order_mark }
{
    b"\xEF\xBB\xBF"
}

/// What follows a byte order mark, where one begins the text.
#[tactic(auto, unfolding(crate::specs::Reading::unmarked))]
fn unmarked(text: &[u8]) -> &[u8]
    ensures { result.now ≡ unmarked text.now }
{
    match stripped(text, byte_order_mark()) {
        Some(rest) => rest,
        None => text,
    }
}

/// What follows a declaration, where one begins the text behind white space.
#[tactic(auto, unfolding(crate::specs::Reading::undeclared))]
fn undeclared(text: &[u8]) -> Option<&[u8]>
    ensures { option_map (λ x. x.now) result ≡ undeclared text.now }
{
    match after_fixed(text, b"<?xml") {
        Some(inside) => after_mark(inside, b"?>"),
        None => Some(text),
    }
}

#[tactic(auto, unfolding(crate::specs::Reading::opening_at))]
fn opening(text: &[u8]) -> Option<&[u8]>
    ensures { option_map (λ x. x.now) result ≡ opening_at text.now }
{
    undeclared(unmarked(text))
}

/// What the parts of the text begin with: the text without a byte order mark at its front, and
/// without a declaration behind that and white space. `None` exactly where a declaration has no end.
pub fn after_opening(text: &[u8]) -> Option<&[u8]>
    ensures exact { MatchOption result
        ((rest : List ℕ) → IsOpening text.now rest → ⊥)
        (λ behind. IsOpening text.now behind.now) }
    // Nothing else is what they begin with.
    ensures single { (one other : List ℕ) → IsOpening text.now one → IsOpening text.now other → one ≡ other }
{
    opening(text)
}
