use crate::texts::{edited, joined, place_of};
use frag_parse::{ParseFault, parse_crate};
use frag_tree::{Crate, Version, print_crate};
use pac_base::NoMemory;
use pac_io::{MemSink, SinkFault};
use std::alloc::Global;
use std::test::Fail;

pub(crate) const EXAMPLE: &[u8] = b"use crate::generic::*;

pub struct Peripherals {
    pub T: Periph<t::RegisterBlock, 0x40000000>,
}

pub mod t {
    use crate::generic::*;
    #[repr(C)]
    pub struct RegisterBlock {
        sr: Reg<sr::Spec>,
    }
    impl RegisterBlock {
        pub fn sr(&self) -> &Reg<sr::Spec> { &self.sr }
    }
    pub mod sr {
        use crate::generic::*;
        pub struct Spec;
        impl RegisterSpec for Spec { type Ux = u32; }
        impl Readable for Spec {}
        impl Writable for Spec { const ZERO_TO_MODIFY: u32 = 0x0; const ONE_TO_MODIFY: u32 = 0x1; }
        impl Resettable for Spec { const RESET_VALUE: u32 = 0x3; }
        pub struct F0_F;
        pub struct F1_F;
        impl R<Spec> {
            pub fn f0(&self) -> BitReader<F0_F> { BitReader::new(((self.bits >> 0) & 0x1) != 0x0) }
            pub fn f1(&self) -> BitReader<F1_F> { BitReader::new(((self.bits >> 1) & 0x1) != 0x0) }
        }
        impl W<Spec> {
            pub fn f0(&mut self) -> BitWriter1C<'_, Spec, F0_F> { BitWriter1C::new(self, 0) }
            pub fn f1(&mut self) -> BitWriter<'_, Spec, F1_F> { BitWriter::new(self, 1) }
        }
    }
}
";

// Where each item of it begins, in bytes: a slot, a block, a struct field, an accessor, a register,
// two markers, two readers and two writers.
const PLACES: &[usize] = &[53, 101, 194, 252, 310, 642, 667, 719, 819, 952, 1046];

// Whether a crate is printed as this text.
fn prints(alloc: Global, krate: &Crate, text: &[u8]) -> Result<bool, SinkFault> {
    let mut sink = MemSink::new(alloc);
    print_crate(alloc, krate, &mut sink)?;
    Ok(sink.written() == text)
}

// Whether a crate can't be printed where the first write fails.
fn stops(alloc: Global, krate: &Crate) -> Result<bool, SinkFault> {
    let mut failing = MemSink::new(alloc);
    failing.fail(1)?;
    Ok(matches!(
        print_crate(alloc, krate, &mut failing),
        Err(SinkFault::Failed)
    ))
}

#[test]
fn what_is_read_is_printed_as_it_was(rt: HostRuntime) -> Result<(), Fail> {
    let krate = parse_crate(rt.alloc(), EXAMPLE)?;
    assert!(rt; krate.places.as_slice() == PLACES);
    assert!(rt; prints(rt.alloc(), &krate, EXAMPLE)?);
    assert!(rt; stops(rt.alloc(), &krate)?);
    Ok(())
}

// A text of version 2, with a bit and a number whose calls take an index.
const INDEXED: &[u8] = b"pub const CRATE_TEXT: u32 = 0x2;
use crate::generic::*;

pub struct Peripherals {
    pub D: Periph<d::RegisterBlock, 0x50000000>,
}

pub mod d {
    use crate::generic::*;
    #[repr(C)]
    pub struct RegisterBlock {
        en: Reg<en::Spec>,
    }
    impl RegisterBlock {
        pub fn en(&self) -> &Reg<en::Spec> { &self.en }
    }
    pub mod en {
        use crate::generic::*;
        pub struct Spec;
        impl RegisterSpec for Spec { type Ux = u32; }
        impl Resettable for Spec { const RESET_VALUE: u32 = 0x0; }
        pub struct CH_F;
        pub struct LV_F;
        impl R<Spec> {
            pub fn ch(&self, n: usize) -> BitReader<CH_F> { BitReader::new(((self.bits >> at_bit(0, 4, 8, n)) & 0x1) != 0x0) }
            pub fn lv(&self, n: usize) -> FieldReader<LV_F, u8> { FieldReader::new(((self.bits >> at_bit(0, 8, 4, n)) & 0x3) as u8) }
        }
        impl W<Spec> {
            pub fn ch(&mut self, n: usize) -> BitWriter<'_, Spec, CH_F> { BitWriter::new(self, at_bit(0, 4, 8, n)) }
            pub fn lv(&mut self, n: usize) -> FieldWriter<'_, Spec, LV_F, u8, 2> { FieldWriter::new(self, at_bit(0, 8, 4, n)) }
        }
    }
}
";

#[test]
fn version_two_is_printed_as_it_was_read(rt: HostRuntime) -> Result<(), Fail> {
    let krate = parse_crate(rt.alloc(), INDEXED)?;
    assert!(rt; matches!(krate.version, Version::Two));
    assert!(rt; prints(rt.alloc(), &krate, INDEXED)?);
    Ok(())
}

// Up to this byte, behind its slots, the text is a crate without modules.
const SLOTS: usize = 134;

// Whether the bytes are no crate.
fn is_syntax(alloc: Global, bytes: &[u8]) -> bool {
    matches!(parse_crate(alloc, bytes), Err(ParseFault::Syntax { .. }))
}

// The place of the first byte up to which the text is a crate, or without which it is one, but for those behind the
// slots; its length where there is none.
fn first_wrong(alloc: Global, text: &[u8]) -> Result<usize, NoMemory> {
    let mut spoiled = Vec::from_slice(alloc, text)?;
    for (place, byte) in text.iter().enumerate() {
        if *byte == b' ' || *byte == b'\n' {
            continue;
        }
        if is_syntax(alloc, text.split_at(place).0) != (place != SLOTS) {
            return Ok(place);
        }
        put(&mut spoiled, place, b'@');
        if !is_syntax(alloc, spoiled.as_slice()) {
            return Ok(place);
        }
        put(&mut spoiled, place, *byte);
    }
    Ok(text.len())
}

// Puts a byte in its place.
fn put(bytes: &mut Vec<u8>, place: usize, byte: u8) {
    if let Some(old) = bytes.get_mut(place) {
        *old = byte;
    }
}

#[test]
fn no_part_of_version_two_can_be_left_out(rt: HostRuntime) -> Result<(), Fail> {
    let place = first_wrong(rt.alloc(), INDEXED)?;
    assert!(rt; place == INDEXED.len(), "{place}");
    Ok(())
}

// What is put in the place of what, once in the text of version 2, and what reading stops at.
const EDITED: &[(&[u8], &[u8], &[u8])] = &[
    (b"0x2;\nuse", b"0x3;\nuse", b"0x3"),
    (b"0x2;\nuse", b"0x02;\nuse", b"0x02"),
    // two lines of the version, and none
    (
        b"use crate",
        b"pub const CRATE_TEXT: u32 = 0x2; use crate",
        b"pub const CRATE_TEXT: u32 = 0x2; use",
    ),
    (
        b"pub const CRATE_TEXT: u32 = 0x2;",
        b"",
        b", n: usize) -> BitReader",
    ),
    (
        b"R<Spec> {\n            pub fn ch(&self, n: usize)",
        b"R<Spec> {\n            pub fn ch(&self)",
        b"at_bit",
    ),
    // arguments of `at_bit`
    (
        b"at_bit(0, 4, 8, n)) &",
        b"at_bit(0, 4, n)) &",
        b"n)) & 0x1",
    ),
    (
        b"at_bit(0, 4, 8, n)) &",
        b"at_bit(0, 4, 8, 1, n)) &",
        b"1, n)",
    ),
    (b"at_bit(0, 4, 8, n)) &", b"at_bit(0, 4, 8, i)) &", b"i)) &"),
    (
        b"at_bit(0, 4, 8, n)) &",
        b"at_bit(0, 0x4, 8, n)) &",
        b"0x4, 8",
    ),
];

// Whether reading stops at these words where the text is edited.
fn stops_at(alloc: Global, old: &[u8], new: &[u8], stops: &[u8]) -> Result<bool, NoMemory> {
    let text = edited(alloc, INDEXED, old, new)?;
    Ok(syntax_at(alloc, text.as_slice()) == place_of(text.as_slice(), stops))
}

#[test]
fn version_two_refused_where_it_is_edited(rt: HostRuntime) -> Result<(), Fail> {
    for (place, &(old, new, stops)) in EDITED.iter().enumerate() {
        assert!(rt; stops_at(rt.alloc(), old, new, stops)?, "{place}");
    }
    Ok(())
}

// Where reading stopped, for a text that is no crate.
fn syntax_at(alloc: Global, text: &[u8]) -> Option<usize> {
    match parse_crate(alloc, text) {
        Err(ParseFault::Syntax { at }) => Some(at),
        _ => None,
    }
}

// Texts, and the byte at which each stops being a crate.
const WORDS: &[(&[u8], Option<usize>)] = &[
    (b"", Some(0)),
    (b"use crate::generic::*;", Some(22)),
    // other white space, and a comment with a letter in it that is no ASCII
    (
        b"use// \xC3\xBC\ncrate::generic::*;\tpub\r\nstruct Peripherals{}//",
        None,
    ),
];

#[test]
fn edited_text_refused(rt: HostRuntime) -> Result<(), Fail> {
    for (place, &(text, at)) in WORDS.iter().enumerate() {
        assert!(rt; syntax_at(rt.alloc(), text) == at, "{place}");
    }
    let twice = joined(rt.alloc(), &[EXAMPLE, EXAMPLE])?;
    assert!(rt; syntax_at(rt.alloc(), twice.as_slice()) == Some(1142));
    Ok(())
}

const BLOCK: &[u8] =
    b"pub mod b { use crate::generic::*; #[repr(C)] pub struct RegisterBlock {} impl RegisterBlock {}";

// A crate with so many block modules, one in another, of which the last `left` stay open.
fn nested(alloc: Global, depth: usize, left: usize) -> Result<Vec<u8>, NoMemory> {
    let mut text = Vec::from_slice(alloc, b"use crate::generic::*; pub struct Peripherals {}")?;
    for _ in 0..depth {
        text.extend_from_slice(BLOCK)?;
    }
    for _ in left..depth {
        text.push(b'}')?;
    }
    Ok(text)
}

// What a text is: a crate, or no crate or one that nests too deep from this byte on.
fn said(alloc: Global, text: &[u8]) -> (&'static str, usize) {
    match parse_crate(alloc, text) {
        Ok(_) => ("crate", 0),
        Err(ParseFault::Syntax { at }) => ("syntax", at),
        Err(ParseFault::TooDeep { at }) => ("too deep", at),
        Err(_) => ("no memory", 0),
    }
}

#[test]
fn modules_nest_64_deep(rt: HostRuntime) -> Result<(), Fail> {
    let most = nested(rt.alloc(), 64, 0)?;
    assert!(rt; said(rt.alloc(), most.as_slice()) == ("crate", 0));
    let more = nested(rt.alloc(), 65, 0)?;
    let place = 48 + 64 * BLOCK.len();
    assert!(rt; said(rt.alloc(), more.as_slice()) == ("too deep", place));
    let broken = nested(rt.alloc(), 65, 1)?;
    assert!(rt; said(rt.alloc(), broken.as_slice()) == ("syntax", broken.len()));
    Ok(())
}
