use std::alloc::Global;
use std::test::Fail;
use xml_text::{Part, Tag, XmlFault, after_opening, split_part};

/// How many parts stand in the text up to its end or a fault, and whether that is its end.
fn counted(alloc: Global, text: &[u8]) -> Result<(usize, bool), XmlFault> {
    let Some(opened) = after_opening(text) else {
        return Ok((0, false));
    };
    let mut rest = opened;
    for count in 0..text.len() {
        if rest.is_empty() {
            return Ok((count, true));
        }
        match split_part(alloc, rest) {
            Ok((_part, after)) => rest = after,
            Err(XmlFault::Syntax) => return Ok((count, false)),
            Err(fault) => return Err(fault),
        }
    }
    Ok((text.len(), rest.is_empty()))
}

const PARTS: &[(&[u8], usize, bool)] = &[
    (b"\xEF\xBB\xBF <?xml version=\"1.0\"?>\n<a/>", 2, true),
    (b"<?xml <a/>", 0, false),
    (b"<a b=\"1\" c = '2' ></a >", 2, true),
    (b"<a b=\"'\" c='\"'/>", 1, true),
    (b"<a b='1'c='2'/>", 0, false),
    (b"<a b='<'/>", 0, false),
    (b"<a b=1/>", 0, false),
    (b"<a b='1' b='2'/>", 0, false),
    (b"<a b='1' B='2'/>", 1, true),
    (b"< a/>", 0, false),
    (b"<a / >", 0, false),
    (b"<_a.b:c-1></_a.b:c-1>", 2, true),
    (b"<1/>", 0, false),
    (b"one&amp;two&#32;&#x20AC;", 5, true),
    (b"&#xD800;", 0, false),
    (b"&#xE000;&#1114111;", 2, true),
    (b"&#1114112;", 0, false),
    (b"&nbsp;", 0, false),
    (b"<!-->-->", 1, true),
    (b"<!-- -- -->x", 2, true),
    (b"<![CDATA[x]]>", 0, false),
    (b"<!DOCTYPE a>", 0, false),
];

#[test]
fn parts_of_texts(rt: HostRuntime) -> Result<(), Fail> {
    for (place, &(text, count, whole)) in PARTS.iter().enumerate() {
        assert!(rt; counted(rt.alloc(), text)? == (count, whole), "{place}");
    }
    Ok(())
}

/// Whether the attribute of this number has this name and this value.
fn has(tag: &Tag, number: usize, name: &[u8], value: &[u8]) -> bool {
    match tag.attributes.get(number) {
        Some(attribute) => attribute.name == name && attribute.value == value,
        None => false,
    }
}

/// Whether a part is the start tag of a field, which closes itself and has two attributes.
fn is_field(part: &Part) -> bool {
    match part {
        Part::Start(tag) => {
            tag.name == b"field".as_slice()
                && tag.closes_itself
                && tag.attributes.len() == 2
                && has(tag, 0, b"derivedFrom", b"A.B")
                && has(tag, 1, b"x:y", b"&")
        }
        _ => false,
    }
}

/// How many bytes of the text are left from the first byte of its first attribute's value on.
fn left(part: &Part) -> usize {
    match part {
        Part::Start(tag) => match tag.attributes.first() {
            Some(attribute) => attribute.left,
            None => 0,
        },
        _ => 0,
    }
}

#[test]
fn start_tag_with_both_quotes(rt: HostRuntime) -> Result<(), Fail> {
    let (part, rest) = split_part(rt.alloc(), b"<field derivedFrom=\"A.B\" x:y = '&' />&lt;")?;
    assert!(rt; is_field(&part));
    assert!(rt; left(&part) == 21);
    assert!(rt; rest == b"&lt;".as_slice());
    Ok(())
}
