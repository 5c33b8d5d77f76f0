ghost use Rattle.std.specs.Prelude.{◌≡◌, option_map};
ghost use Rattle.xml_text.specs.Reading.{gap_at};
ghost use Rattle.text_scan.specs.Follows.{after_block};

use text_scan::{Class, after_blanks, stripped};

/// What follows white space, of which at least one byte begins the text.
#[tactic(auto, unfolding(crate::specs::Reading::gap_at))]
pub fn after_gap(text: &[u8]) -> Option<&[u8]>
    ensures { option_map (λ x. x.now) result ≡ gap_at text.now }
{
    let [first, others @ ..] = text else {
        return None;
    };
    if !Class::Blank.has(*first) {
        return None;
    }
    Some(after_blanks(others))
}

/// What follows the fixed text, which begins the text behind white space.
#[tactic(auto, unfolding(text_scan::specs::Follows::after_block))]
pub fn after_fixed<'a>(text: &'a [u8], fixed: &[u8]) -> Option<&'a [u8]>
    ensures { option_map (λ x. x.now) result ≡ after_block fixed.now text.now }
{
    stripped(after_blanks(text), fixed)
}
