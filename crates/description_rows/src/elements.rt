use crate::vendor::VENDOR;
use pac_base::{NoMemory, Span};
use std::alloc::Global;
use std::test::Fail;
use svd_text::{Element, Source, TextFault, read_element};

/// How many elements an element is, itself and those in it.
fn counted(element: &Element) -> u32 {
    let mut count: u32 = 1;
    for child in &element.children {
        count = count.saturating_add(counted(child));
    }
    count
}

/// What a text is: `read`, or its fault, with the first byte of that.
fn said(alloc: Global, text: &[u8]) -> (&'static str, u32) {
    if text.len() > 5000 {
        return ("no short text", 0);
    }
    match read_element(alloc, text) {
        Ok(_device) => ("read", 0),
        Err(TextFault::Syntax { at }) => ("syntax", at),
        Err(
            TextFault::TooDeep {
                span: Span { start, end: _ },
            },
        ) => ("too deep", start),
        Err(_) => ("no memory", 0),
    }
}

/// Whether a text is refused at this place, or read where there is none.
fn stops(alloc: Global, text: &[u8], at: Option<u32>) -> bool {
    match at {
        Some(at) => said(alloc, text) == ("syntax", at),
        None => said(alloc, text) == ("read", 0),
    }
}

/// Texts, each with the place at which it is refused, if it is.
const TEXTS: &[(&[u8], Option<u32>)] = &[
    (b"", Some(0)),
    (b"<device/>", None),
    (
        b"\xEF\xBB\xBF <?xml version='1.0'?>\n<!--a--> <device />\n<!--b-->\n",
        None,
    ),
    (b"<?xml <device/>", Some(15)),
    (b"<device/><?xml?>", Some(9)),
    (b"x<device/>", Some(0)),
    (b"<device/><device/>", Some(9)),
    (b"<device/>&#32;", Some(9)),
    (b"<!----><package/>", Some(7)),
    (b"<device></Device>", Some(8)),
    (b"<device></device></device>", Some(17)),
    (b"<device><!-- </device>", Some(8)),
    (b"<device> <!-- x -->x</device>", Some(19)),
    (b"<device>&#32;</device>", Some(8)),
    (b"<device><peripherals>x</peripherals></device>", Some(21)),
    (
        b"<device><cpu>x&lt;<peripherals>x</peripherals></cpu></device>",
        None,
    ),
    (
        b"<device><peripheral>x<registers>x</registers></peripheral></device>",
        None,
    ),
    (
        b"<device><size>x<peripherals>x</peripherals></size></device>",
        None,
    ),
    (b"<device a='1' a='2'/>", Some(0)),
    (b"<device><size></device></size>", Some(14)),
];

const WHOLE: &[u8] = b"<?xml?><device><name>D&amp;</name><!--c--></device>";

#[test]
fn texts_and_the_places_of_syntax(rt: HostRuntime) {
    for (place, &(text, at)) in TEXTS.iter().enumerate() {
        assert!(rt; stops(rt.alloc(), text, at), "{place}");
    }
    assert!(rt; stops(rt.alloc(), b"<device>\xFF</device>", Some(8)));
}

/// Whether no text up to a byte of a text is one.
fn has_no_prefix(alloc: Global, text: &[u8]) -> bool {
    for end in 0..text.len() {
        if said(alloc, text.split_at(end).0).0 != "syntax" {
            return false;
        }
    }
    true
}

#[test]
fn no_prefix_is_a_text(rt: HostRuntime) {
    assert!(rt; has_no_prefix(rt.alloc(), WHOLE));
    assert!(rt; stops(rt.alloc(), WHOLE, None));
}

/// Whether the last element of the last one inside refers to a name that stands at this place.
fn is_derived_from(device: &Element, name: &[u8], at: u32) -> bool {
    match last_source(device) {
        Some(source) => source.value == name && source.at == at,
        None => false,
    }
}

/// What the last element of the last one inside refers to.
fn last_source<'a>(device: &Element<'a>) -> Option<Source<'a>> {
    device.children.last()?.children.last()?.source
}

#[test]
fn elements_of_a_vendors_file(rt: HostRuntime) -> Result<(), Fail> {
    let device = read_element(rt.alloc(), VENDOR)?;
    assert!(rt; counted(&device) == 71);
    assert!(rt; device.name_at == 112 && device.ends_at == 2098);
    assert!(rt; is_derived_from(&device, b"TIM2", 1998));
    Ok(())
}

fn is_size(size: &Element) -> bool {
    size.said.bytes() == b"32".as_slice()
        && size.inside == b"3<!-- c -->2".as_slice()
        && (size.name_at, size.inside_at, size.ends_at) == (9, 14, 33)
}

fn is_name(name: &Element) -> bool {
    name.said.bytes() == b"A&\xC3\xA9".as_slice()
}

#[test]
fn value_without_comments(rt: HostRuntime) -> Result<(), Fail> {
    let device = read_element(
        rt.alloc(),
        b"<device><size>3<!-- c -->2</size><name>A&amp;&#xE9;</name></device>",
    )?;
    assert!(rt; device.children.first().is_some_and(is_size));
    assert!(rt; device.children.last().is_some_and(is_name));
    Ok(())
}

/// A text whose elements nest so deep, and what stands at its end.
fn nested(alloc: Global, depth: usize, end: &str) -> Result<String, NoMemory> {
    let mut text = String::from_str(alloc, "<device><vendorExtensions>")?;
    for _ in 2..depth {
        text.push_str("<a>")?;
    }
    for _ in 2..depth {
        text.push_str("</a>")?;
    }
    text.push_str("</vendorExtensions></device>")?;
    text.push_str(end)?;
    Ok(text)
}

/// How deep the elements of a text nest, what stands at its end, and what it is. Of a text that is
/// none, too, it is said where it is none, however deep it nests.
const NESTED: &[(usize, &str, &str, u32)] = &[
    (64, "", "read", 0),
    (65, "", "too deep", 213),
    (300, "", "too deep", 213),
    (65, "x", "syntax", 495),
];

#[test]
fn nesting_up_to_64(rt: HostRuntime) -> Result<(), Fail> {
    for &(depth, end, wanted, at) in NESTED {
        let text = nested(rt.alloc(), depth, end)?;
        assert!(rt;
            said(rt.alloc(), text.as_bytes()) == (wanted, at),
            "{depth}"
        );
    }
    Ok(())
}
