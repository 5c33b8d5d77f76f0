ghost use Rattle.std.specs.Prelude.{◌≡◌, option_map};
ghost use Rattle.xml_text.specs.Reading.{after_mark, comment_at};

use text_scan::stripped;

/// What follows the first place in the text where the mark stands.
#[tactic(auto, unfolding(crate::specs::Reading::after_mark))]
pub fn after_mark<'a>(text: &'a [u8], mark: &[u8]) -> Option<&'a [u8]>
    ensures { option_map (λ x. x.now) result ≡ after_mark mark.now text.now }
{
    let mut rest = text;
    while let [_, after @ ..] = rest {
        if let Some(behind) = stripped(rest, mark) {
            return Some(behind);
        }
        rest = after;
    }
    stripped(rest, mark)
}

/// What follows the comment that begins the text.
#[tactic(auto, unfolding(crate::specs::Reading::comment_at))]
pub fn after_comment(text: &[u8]) -> Option<&[u8]>
    ensures { option_map (λ x. x.now) result ≡ comment_at text.now }
{
    after_mark(stripped(text, b"<!--")?, b"-->")
}
