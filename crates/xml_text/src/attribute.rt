ghost use Rattle.std.specs.Prelude.{◌≡◌, option_map};
ghost use Rattle.xml_text.specs.Views.{attribute_of};
ghost use Rattle.xml_text.specs.Reading.{value_at, attribute_at, begins_attribute};

use crate::gap::{after_fixed, after_gap};
use crate::name::{begins_name, split_name};
use crate::quote::split_quote;
use crate::run::{Run, split_run};
use text_scan::{after_blanks, stripped};

/// An attribute of a start tag.
#[derive(Clone, Copy)]
pub struct Attribute<'a> {
    /// Its name.
    pub name: &'a [u8],
    /// The bytes between its quotes, as they stand.
    pub value: &'a [u8],
    /// How many bytes of the text are left from the first byte of the value on.
    pub left: usize,
}

/// Whether an attribute's name begins the text behind white space.
#[tactic(auto, unfolding(crate::specs::Reading::begins_attribute))]
pub fn begins_attribute(text: &[u8]) -> bool
    ensures { result ≡ begins_attribute text.now }
{
    begins_name(after_blanks(text))
}

/// The value that stands in its quotes at the front of the text behind white space, how many bytes
/// are left from its first on, and what follows it.
#[tactic(auto, unfolding(crate::specs::Reading::value_at))]
fn split_value(text: &[u8]) -> Option<(&[u8], usize, &[u8])>
    ensures { option_map (λ x. (x.0.now, x.1, x.2.now)) result ≡ value_at text.now }
{
    let (quote, inside) = split_quote(after_blanks(text))?;
    let (value, behind) = split_run(inside, Run::Value(quote));
    let rest = stripped(behind, quote.mark())?;
    Some((value, inside.len(), rest))
}

/// The attribute at the front of the text, with the white space before it, and what follows.
#[tactic(auto, unfolding(crate::specs::Reading::attribute_at))]
pub fn split_attribute(text: &[u8]) -> Option<(Attribute, &[u8])>
    ensures { option_map (λ x. (attribute_of x.0, x.1.now)) result ≡ attribute_at text.now }
{
    let (name, behind) = split_name(after_gap(text)?)?;
    let (value, left, rest) = split_value(after_fixed(behind, b"=")?)?;
    Some((Attribute { name, value, left }, rest))
}
