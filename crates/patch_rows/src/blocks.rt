use pac_base::NoMemory;
use std::alloc::Global;
use std::test::Fail;
use yaml_block::{BlockFault, Content, Line, Node, Value, read_block, read_lines};

/// What the bytes are: `fits`, or the fault and its line.
fn answer(alloc: Global, bytes: &[u8]) -> (&'static str, u32) {
    if bytes.len() > 10_000 {
        return ("no short text", 0);
    }
    match read_block(alloc, bytes) {
        Ok(_) => ("fits", 0),
        Err(BlockFault::Syntax { line }) => ("syntax", line),
        Err(BlockFault::TooDeep { line }) => ("too deep", line),
        Err(BlockFault::DoubleKey { line }) => ("double key", line),
        Err(_) => ("no memory", 0),
    }
}

/// Texts that spell a node.
const SPELLED: &[&[u8]] = &[
    b"",
    b"a:\nb:\n- 1\nc:\n  - 2\nd:\n   e:\n     f: 3\n   g:\nh: {i: 4}",
    b"a:\n  b: 1\nc:\n  b: 2",
    b"\xEF\xBB\xBFa: b\r\n\r\nc:\r\n",
    b"# no line\n\n  # none\n---\na: b",
    b"a: b # \tc\nd: # e",
    b"a: 'b # c'",
    b"'a' : \"b\\n\\t\\\\\\\"\"",
    b"T[:\n- b",
    b"a: []\nb: {}\nc: [d,'e' ,f]\nj: {g: h, \"i\" : j}",
];

/// Texts that spell none, each with its first fault and the line of that.
const REFUSED: &[(&[u8], &str, u32)] = &[
    (b"a: &b c", "syntax", 1),
    (b"a: *b", "syntax", 1),
    (b"a: !t c", "syntax", 1),
    (b"a: |\n  b", "syntax", 1),
    (b"a: [[b]]", "syntax", 1),
    (b"a: [b,]", "syntax", 1),
    (b"a: {b:c}", "syntax", 1),
    (b"a:\n\tb: 1", "syntax", 2),
    (b"a: b\tc", "syntax", 1),
    (b"a: 'b", "syntax", 1),
    (b"a: \"\\x\"", "syntax", 1),
    (b"a: b: c", "syntax", 1),
    (b"a:b\n", "syntax", 1),
    (b"a: b\n---\nc: d", "syntax", 2),
    (b"a: 1\n---\n", "syntax", 2),
    (b"- a", "syntax", 1),
    (b"-\n", "syntax", 1),
    (b" a: b", "syntax", 1),
    (b"a: 1\n  b: 2", "syntax", 2),
    (b"a:\n    b: 1\n  c: 2", "syntax", 3),
    (b"a:\n- 1\n - 2", "syntax", 3),
    (b"a:\n  - 1\n  b: 2", "syntax", 3),
    (b"a: 1\n- 2\na: [", "syntax", 2),
    (b"a: 1\na: 2\nb: [", "syntax", 3),
    (b"a: 1\nb: {c: 1}\n- d", "syntax", 3),
    (b"T:\nT:", "double key", 2),
    (b"a:\n  - {b: 1, c: 2, b: 3}\na: 4", "double key", 2),
    (b"a:\n  b:\n  'b': 1\na:", "double key", 3),
];

#[test]
fn blocks_and_their_first_faults(rt: HostRuntime) {
    for (place, &text) in SPELLED.iter().enumerate() {
        assert!(rt; answer(rt.alloc(), text) == ("fits", 0), "{place}");
    }
    for (place, &(text, said, line)) in REFUSED.iter().enumerate() {
        assert!(rt; answer(rt.alloc(), text) == (said, line), "{place}");
    }
    assert!(rt; answer(rt.alloc(), b"a: b\nc: \xFF\n") == ("syntax", 2));
}

/// Mappings in mappings, so many, one on each line, with the last line as it is told.
fn nested(alloc: Global, levels: usize, last: &str) -> Result<Vec<u8>, NoMemory> {
    let mut text = Vec::new(alloc);
    for level in 1..levels {
        text.extend_from_slice(b"a:\n")?;
        for _ in 0..level {
            text.push(b' ')?;
        }
    }
    text.extend_from_slice(last.as_bytes())?;
    Ok(text)
}

/// How many mappings nest, what the last line is, and what the whole is. A list is one level more.
const NESTED: &[(usize, &str, &str, u32)] = &[
    (64, "a: b", "fits", 0),
    (64, "a: []", "too deep", 64),
    (65, "a: b", "too deep", 64),
    (66, "a b", "syntax", 66),
];

#[test]
fn sixty_four_levels(rt: HostRuntime) -> Result<(), Fail> {
    for &(levels, last, said, line) in NESTED {
        let text = nested(rt.alloc(), levels, last)?;
        assert!(rt;
            answer(rt.alloc(), text.as_slice()) == (said, line),
            "{levels}"
        );
    }
    Ok(())
}

fn scalar_of(node: &Node) -> Option<&str> {
    match node {
        Node::Scalar(text) => Some(text.as_str()),
        _ => None,
    }
}

fn is_item(item: Option<&(u32, Node)>, line: u32, text: &str) -> bool {
    match item {
        Some((at, node)) => *at == line && scalar_of(node) == Some(text),
        None => false,
    }
}

/// Whether a node is a list of two scalars on the lines 2 and 3.
fn is_list(node: &Node) -> bool {
    match node {
        Node::List(items) => {
            items.len() == 2 && is_item(items.get(0), 2, "1") && is_item(items.get(1), 3, "2'3")
        }
        _ => false,
    }
}

/// Whether a node is a mapping with that list under a key alone.
fn is_mapping(node: &Node) -> bool {
    match node {
        Node::Map(entries) => match entries.get(0) {
            Some((line, key, value)) => {
                (*line, key.as_str(), entries.len()) == (1, "a", 1) && is_list(value)
            }
            None => false,
        },
        _ => false,
    }
}

#[test]
fn a_list_under_a_key(rt: HostRuntime) -> Result<(), Fail> {
    let node = read_block(rt.alloc(), b"a:\n- 1\n- '2''3'")?;
    assert!(rt; is_mapping(&node));
    Ok(())
}

fn entry_text(line: &Line) -> Option<(&str, &str)> {
    match &line.content {
        Content::Entry(key, Value::Scalar(text)) => Some((key.as_str(), text.as_str())),
        _ => None,
    }
}

const LINES: &str =
    "_svd: ex32f1.svd\n\nTIM2:\n  from : it's # so\n    'a''b': \"c\\\"d\"\n  - ' '\n";

/// Whether a line is an entry of this number and indent, key and scalar.
fn is_entry(line: Option<&Line>, number: u32, indent: usize, entry: (&str, &str)) -> bool {
    match line {
        Some(line) => (line.number, line.indent) == (number, indent)
            && entry_text(line) == Some(entry),
        None => false,
    }
}

#[test]
fn lines_with_numbers_indents_and_scalars(rt: HostRuntime) -> Result<(), Fail> {
    let found = read_lines(rt.alloc(), LINES.as_bytes())?;
    assert!(rt; (found.lines.len(), found.fault) == (5, None));
    assert!(rt; is_entry(found.lines.get(2), 4, 2, ("from", "it's")));
    assert!(rt; is_entry(found.lines.get(3), 5, 4, ("a'b", "c\"d")));
    Ok(())
}
