ghost use Rattle.std.specs.Prelude.{◌≡◌};
ghost use Rattle.text_scan.specs.Fronts.{rest_of};
ghost use Rattle.yaml_block.specs.Spaces.{is_space, starts, is_parted, ends, trimmed};

/// What follows the spaces at the front of the text.
#[tactic(auto, unfolding(text_scan::specs::Fronts::rest_of))]
pub fn after_spaces(text: &[u8]) -> &[u8]
    ensures { result.now ≡ rest_of is_space text.now }
{
    let mut rest = text;
    while let [first, after @ ..] = rest {
        if *first != b' ' {
            break;
        }
        rest = after;
    }
    rest
}

/// The text without the spaces at its end.
#[tactic(auto, unfolding(crate::specs::Spaces::trimmed))]
pub fn trimmed(text: &[u8]) -> &[u8]
    ensures { result.now ≡ trimmed text.now }
{
    let mut rest = text;
    while let [before @ .., last] = rest {
        if *last != b' ' {
            break;
        }
        rest = before;
    }
    rest
}

/// Whether the text begins with the byte.
#[tactic(auto, unfolding(crate::specs::Spaces::starts))]
pub fn starts(text: &[u8], byte: u8) -> bool
    ensures { result ≡ starts byte text.now }
{
    match text {
        [] => false,
        [first, ..] => *first == byte,
    }
}

/// Whether the text is empty or begins with a space.
#[tactic(auto, unfolding(crate::specs::Spaces::is_parted))]
pub fn is_parted(text: &[u8]) -> bool
    ensures { result ≡ is_parted text.now }
{
    match text {
        [] => true,
        [first, ..] => *first == b' ',
    }
}

/// Whether nothing counts in the text: it has spaces alone, or behind a space a comment.
#[tactic(auto, unfolding(crate::specs::Spaces::ends))]
pub fn ends(text: &[u8]) -> bool
    ensures { result ≡ ends text.now }
{
    let rest = after_spaces(text);
    rest.is_empty() || (starts(text, b' ') && starts(rest, b'#'))
}
