ghost use Rattle.std.specs.Prelude.{◌≡◌};
ghost use Rattle.text_scan.specs.Fronts.{front_of, rest_of};
ghost use Rattle.xml_text.specs.Bytes.{is_name_start, is_name_byte, is_in};

use crate::quote::Quote;

/// A kind of bytes of which a whole run is read.
#[derive(Clone, Copy)]
pub enum Run {
    /// What a name has after its first byte.
    Name,
    /// What stands between tags and references.
    Text,
    /// What an attribute's value holds between its quotes.
    Value(Quote),
    /// What a reference holds before its semicolon.
    Reference,
}

impl Run {
    #[tactic(auto, unfolding(crate::specs::Bytes::is_in))]
    fn has(self, byte: u8) -> bool
        ensures { result ≡ is_in self byte }
    {
        match self {
            Run::Name => is_name_byte(byte),
            Run::Text => byte != b'<' && byte != b'&',
            Run::Value(quote) => byte != b'<' && byte != quote.byte(),
            Run::Reference => byte != b';',
        }
    }
}

/// A letter or the underscore, in ASCII.
pub fn is_name_start(byte: u8) -> bool
    ensures { result ≡ is_name_start byte }
{
    (b'A'..=b'Z').contains(&byte) || (b'a'..=b'z').contains(&byte) || byte == b'_'
}

fn is_name_byte(byte: u8) -> bool
    ensures { result ≡ is_name_byte byte }
{
    is_name_start(byte)
        || (b'0'..=b'9').contains(&byte)
        || byte == b'.'
        || byte == b':'
        || byte == b'-'
}

/// What follows the run at the front of the text.
#[tactic(auto, unfolding(text_scan::specs::Fronts::rest_of))]
fn after_run(text: &[u8], run: Run) -> &[u8]
    ensures { result.now ≡ rest_of (is_in run) text.now }
{
    let mut rest = text;
    while let [first, after @ ..] = rest {
        if !run.has(*first) {
            break;
        }
        rest = after;
    }
    rest
}

/// The longest run at the front of the text, and what follows it.
pub fn split_run(text: &[u8], run: Run) -> (&[u8], &[u8])
    ensures front { result.0.now ≡ front_of (is_in run) text.now }
    ensures rest { result.1.now ≡ rest_of (is_in run) text.now }
{
    let rest = after_run(text, run);
    text.split_at(text.len() - rest.len())
}
