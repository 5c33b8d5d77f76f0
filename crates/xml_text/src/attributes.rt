ghost use Rattle.std.specs.Prelude.{◌≡◌, ◌++◌, ◌∷◌, [], true, not, map, MatchResult};
ghost use Rattle.std.specs.List.{list_any};
ghost use Rattle.std.specs.Str.{bytes_eq};
ghost use Rattle.xml_text.specs.Views.{attribute_of, attribute_name, names_in};
ghost use Rattle.xml_text.specs.Reading.{Gives, attribute_at, attributes_at, differ};

use crate::attribute::{Attribute, begins_attribute, split_attribute};
use crate::fault::XmlFault;
use indexmap::IndexSet;
use std::alloc::Global;

fn next_attribute(text: &[u8]) -> Result<(Attribute, &[u8]), XmlFault>
    ensures { Gives (λ x. (attribute_of x.0, x.1.now)) result (attribute_at text.now) }
{
    split_attribute(text).ok_or(XmlFault::Syntax)
}

/// All attributes that begin the text, and what follows them.
pub fn split_attributes(alloc: Global, text: &[u8]) -> Result<(Vec<Attribute>, &[u8]), XmlFault>
    ensures { Gives (λ x. (map attribute_of x.0.items, x.1.now)) result (attributes_at text.now) }
{
    let mut attributes = Vec::new(alloc);
    let mut rest = text;
    'attributes: while begins_attribute(rest) {
        let (attribute, after) = next_attribute(rest)?;
        attributes.push(attribute)?;
        rest = after;
    }
    Ok((attributes, rest))
}

/// Keeps the attribute's name, and says whether it is new.
fn is_new<'a>(seen: &mut IndexSet<&'a [u8]>, attribute: &Attribute<'a>) -> Result<bool, XmlFault>
    ensures new { MatchResult result
        (λ fresh. fresh ≡ not (list_any (bytes_eq (attribute_name attribute.now)) (names_in seen.old)))
        (λ fault. fault ≡ XmlFault.Memory) }
    ensures kept { MatchResult result
        (λ fresh. fresh ≡ true → names_in seen.new ≡ names_in seen.old ++ attribute_name attribute.now ∷ [])
        (λ fault. fault ≡ XmlFault.Memory) }
{
    Ok(seen.insert(attribute.name)?)
}

/// Whether no two attributes have the same name.
pub fn attributes_differ(alloc: Global, attributes: &[Attribute]) -> Result<bool, XmlFault>
    ensures { MatchResult result
        (λ differs. differs ≡ differ (map attribute_name attributes.now))
        (λ fault. fault ≡ XmlFault.Memory) }
{
    let mut seen = IndexSet::new(alloc);
    for attribute in attributes {
        if !is_new(&mut seen, attribute)? {
            return Ok(false);
        }
    }
    Ok(true)
}
