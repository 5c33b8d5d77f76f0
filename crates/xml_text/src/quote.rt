ghost use Rattle.std.specs.Prelude.{◌≡◌, option_map};
ghost use Rattle.xml_text.specs.Bytes.{quote_byte, mark_of};
ghost use Rattle.xml_text.specs.Reading.{quote_at};

/// What stands on both sides of an attribute's value.
#[derive(Clone, Copy)]
pub enum Quote {
    Double,
    Single,
}

impl Quote {
    pub fn byte(self) -> u8
        ensures { result ≡ quote_byte self }
    {
        match self {
            Quote::Double => b'"',
            Quote::Single => b'\'',
        }
    }

    #[tactic(auto, unfolding(crate::specs::Bytes::mark_of))]
    pub fn mark(self) -> &'static [u8]
        ensures { result.now ≡ mark_of self }
    {
        match self {
            Quote::Double => b"\"",
            Quote::Single => b"'",
        }
    }
}

/// The quote that begins the text, and what follows it.
#[tactic(auto, unfolding(crate::specs::Reading::quote_at))]
pub fn split_quote(text: &[u8]) -> Option<(Quote, &[u8])>
    ensures { option_map (λ x. (x.0, x.1.now)) result ≡ quote_at text.now }
{
    let [first, inside @ ..] = text else {
        return None;
    };
    if *first == b'"' {
        return Some((Quote::Double, inside));
    }
    if *first == b'\'' {
        return Some((Quote::Single, inside));
    }
    None
}
