ghost use Rattle.std.specs.Prelude.{◌≡◌, ◌<◌, IfSome, option_map, length};
ghost use Rattle.glob_select.specs.Bytes.{after_spaces};
ghost use Rattle.glob_select.specs.Reading.{after_items, first_items, left_over, led_at, after_led, is_last};

use crate::token::token_at;

/// The text without the spaces at its front.
#[tactic(auto, unfolding(crate::specs::Bytes::after_spaces, text_scan::specs::Fronts::rest_of))]
pub fn after_spaces(text: &[u8]) -> &[u8]
    ensures { result.now ≡ after_spaces text.now }
{
    let mut rest = text;
    while let [first, after @ ..] = rest {
        if *first != b' ' {
            break;
        }
        rest = after;
    }
    rest
}

/// What follows the items at the front of the text.
fn after_items(text: &[u8]) -> &[u8]
    ensures { result.now ≡ after_items text.now }
{
    let mut rest = text;
    while let Some((_, after)) = token_at(rest) {
        rest = after;
    }
    rest
}

/// What follows the items at the front of the text and the spaces round them.
#[tactic(auto, unfolding(crate::specs::Reading::left_over))]
pub fn left_over(text: &[u8]) -> &[u8]
    ensures { result.now ≡ left_over text.now }
{
    after_spaces(after_items(after_spaces(text)))
}

/// What follows the alternative at the front of the text and the comma behind it.
#[tactic(auto, unfolding(crate::specs::Reading::led_at))]
pub fn led_at(text: &[u8]) -> Option<&[u8]>
    ensures read { option_map (λ rest. (first_items text.now, rest.now)) result ≡ led_at text.now }
    ensures shorter { IfSome result (λ rest. length rest.now < length text.now) }
{
    if token_at(after_spaces(text)).is_none() {
        return None;
    }
    let [comma, rest @ ..] = left_over(text) else {
        return None;
    };
    if *comma == b',' { Some(rest) } else { None }
}

/// What follows the alternatives at the front of the text that have a comma behind them.
pub fn after_led(text: &[u8]) -> &[u8]
    ensures { result.now ≡ after_led text.now }
{
    let mut rest = text;
    while let Some(after) = led_at(rest) {
        rest = after;
    }
    rest
}

/// Whether the text is one alternative.
#[tactic(auto, unfolding(crate::specs::Reading::is_last))]
pub fn is_last(text: &[u8]) -> bool
    ensures { result ≡ is_last text.now }
{
    token_at(after_spaces(text)).is_some() && left_over(text).is_empty()
}
