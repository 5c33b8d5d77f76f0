ghost use Rattle.std.specs.Prelude.{◌≡◌, option_map, ◌&&◌, ◌||◌, []};
ghost use Rattle.svd_keys.specs.Earliest.{least, earlier};
ghost use Rattle.svd_keys.specs.Children.{child, double, double_of, has_name, strays, unknown, unknown_at, unknown_in, unknown_in_key, unknown_in_keys, when};
ghost use Rattle.svd_keys.specs.Runs.{within};
ghost use Rattle.svd_text.specs.Views.{element_of};

use crate::fault::{Fault, PlacedFault, earlier};
use crate::text::name_span;
use svd_schema::{Container, role};
use svd_text::Element;

/// The first element of that name in an element.
pub(crate) fn child<'e, 'a>(element: &'e Element<'a>, name: &str) -> Option<&'e Element<'a>>
    ensures { option_map (λ found. element_of found.now) result ≡ child name.now (element_of element.now) }
{
    for child in &element.children {
        if has_name(child, name) {
            return Some(child);
        }
    }
    None
}

fn has_name(element: &Element, name: &str) -> bool
    ensures { result ≡ has_name name.now (element_of element.now) }
{
    element.name == name.as_bytes()
}

// An element that may not stand where it stands.
fn unknown(element: &Element) -> PlacedFault
    ensures { result ≡ unknown (element_of element.now) }
{
    PlacedFault {
        at: element.name_at,
        fault: Fault::UnknownElement {
            span: name_span(element),
        },
    }
}

// An element that stands again.
fn double(element: &Element) -> PlacedFault
    ensures { result ≡ double (element_of element.now) }
{
    PlacedFault {
        at: element.name_at,
        fault: Fault::DoubleElement {
            span: name_span(element),
        },
    }
}

// An element, where it isn't in the container's row.
#[tactic(auto, unfolding(crate::specs::Children::unknown_at, crate::specs::Earliest::least, crate::specs::Earliest::earlier))]
fn unknown_at(container: Container, element: &Element) -> Option<PlacedFault>
    ensures { result ≡ least (unknown_at container (element_of element.now)) }
{
    match role(container, element.name) {
        Some(_) => None,
        None => Some(unknown(element)),
    }
}

/// The first of the elements in a container that may not stand there.
pub(crate) fn unknown_in(container: Container, element: &Element) -> Option<PlacedFault>
    ensures { result ≡ least (unknown_in container (element_of element.now)) }
{
    let mut fault = None;
    for child in &element.children {
        fault = earlier(fault, unknown_at(container, child));
    }
    fault
}

// The first of the elements in a key.
fn unknown_in_key(element: &Element) -> Option<PlacedFault>
    ensures { result ≡ least (unknown_in_key (element_of element.now)) }
{
    let mut fault = None;
    for child in &element.children {
        fault = earlier(fault, Some(unknown(child)));
    }
    fault
}

// The first of the elements in a key, where the element is one of that name.
fn unknown_within(element: &Element, name: &str) -> Option<PlacedFault>
    ensures { result ≡ least (within name.now (element_of element.now)) }
{
    if has_name(element, name) {
        unknown_in_key(element)
    } else {
        None
    }
}

// The first of the elements in the keys of that name.
fn unknown_in_keys(element: &Element, name: &str) -> Option<PlacedFault>
    ensures { result ≡ least (unknown_in_keys name.now (element_of element.now)) }
{
    let mut fault = None;
    for child in &element.children {
        fault = earlier(fault, unknown_within(child, name));
    }
    fault
}

// An element of a name, where one of it stood before.
#[tactic(auto, unfolding(crate::specs::Earliest::least, crate::specs::Earliest::earlier))]
fn again(element: &Element, seen: bool, named: bool) -> Option<PlacedFault>
    ensures { result ≡ least (when (seen && named) (double (element_of element.now))) }
{
    if seen && named {
        Some(double(element))
    } else {
        None
    }
}

fn either(one: bool, other: bool) -> bool
    ensures { result ≡ (one || other) }
{
    one || other
}

/// The first of the elements of that name that stand again in an element.
pub(crate) fn double_of(element: &Element, name: &str) -> Option<PlacedFault>
    ensures { result ≡ least (double_of name.now (element_of element.now)) }
{
    let mut fault = None;
    let mut seen = false;
    for child in &element.children {
        let named = has_name(child, name);
        fault = earlier(fault, again(child, seen, named));
        seen = either(seen, named);
    }
    fault
}

/// The first of the keys of that name that stand again, and of the elements in them.
#[tactic(auto, unfolding(crate::specs::Children::strays))]
pub(crate) fn strays(element: &Element, name: &str) -> Option<PlacedFault>
    ensures { result ≡ least (strays name.now (element_of element.now)) }
{
    earlier(double_of(element, name), unknown_in_keys(element, name))
}
