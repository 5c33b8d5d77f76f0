use crate::texts::{CHANNELS, VALUED, edited, place_of, typed, worked_array};
use frag_types::CrateFault;
use frag_types::CrateTyping::{self, DoubleName, LiteralRange, TooLarge, UnknownName, WrongType};
use pac_base::NoMemory;
use std::alloc::Global;
use std::test::Fail;

/// What is put in the place of what, once in a text that fits, with the kind of the fault and what begins the item at
/// fault.
type Edit<'a> = (&'a [u8], &'a [u8], CrateTyping, &'a [u8]);

// In the text of version 1, names that stand twice: of slots, modules, struct fields, accessors, markers, readers,
// writers, and of the calls of one type.
const NAMES: &[Edit<'static>] = &[
    (
        b"pub S: ",
        b"pub T: ",
        DoubleName,
        b"pub T: Periph<t::RegisterBlock, 0x4",
    ),
    (
        b"pub mod c {",
        b"pub mod a {",
        DoubleName,
        b"pub mod a {\n        use crate::generic::*;\n        #",
    ),
    (b"c: [c::", b"a: [c::", DoubleName, b"a: [c::"),
    (
        b"pub fn x(",
        b"pub fn a(",
        DoubleName,
        b"pub fn a(&self) -> &Reg<a::Spec> { at(",
    ),
    (
        b"pub struct M_F",
        b"pub struct E_F",
        DoubleName,
        b"pub struct E_F;\n        impl R",
    ),
    (
        b"pub fn m(&self)",
        b"pub fn e(&self)",
        DoubleName,
        b"pub fn e(&self) -> FieldReader",
    ),
    (
        b"pub fn m(&mut",
        b"pub fn e(&mut",
        DoubleName,
        b"pub fn e(&mut self) -> FieldWriter",
    ),
    (
        b"== true }",
        b"== true } pub fn is_on(&self) -> bool { self.bit() == false }",
        DoubleName,
        b"pub fn is_on(&self) -> bool { self.bit() == false",
    ),
    (
        b"impl<'a> BitWriter",
        b"impl BitReader<E_F> { pub fn is_on(&self) -> bool { self.bit() == false } } impl<'a> BitWriter",
        DoubleName,
        b"pub fn is_on(&self) -> bool { self.bit() == false",
    ),
    // a name decides before an address in front of it
    (
        b"0xffffffffffffff00>,\n    pub T",
        b"0xffffffffffffffff>,\n    pub S",
        DoubleName,
        b"pub S: Periph<t::RegisterBlock, 0x4",
    ),
];

// Modules that aren't there, of slots, fields and accessors.
const MODULES: &[Edit<'static>] = &[
    (b"S: Periph<t::", b"S: Periph<v::", UnknownName, b"pub S"),
    (b"T: Periph<t::", b"T: Periph<c::", UnknownName, b"pub T"),
    (b"a: Reg<a::", b"a: Reg<b::", UnknownName, b"a: Reg<b::"),
    (b"a: Reg<a::", b"a: Reg<c::", UnknownName, b"a: Reg<c::"),
    (b"c: [c::", b"c: [a::", UnknownName, b"c: [a::"),
    (
        b"&Reg<a::Spec> { at(",
        b"&Reg<d::Spec> { at(",
        UnknownName,
        b"pub fn x(",
    ),
];

// Bodies of accessors, and counts.
const BODIES: &[Edit<'static>] = &[
    (b"&self.a }", b"&self.b }", UnknownName, b"pub fn a("),
    (b"&self.a }", b"&self._reserved0 }", WrongType, b"pub fn a("),
    (b"&self.a }", b"&self.c }", WrongType, b"pub fn a("),
    (b"&self.c[n]", b"&self.a[n]", WrongType, b"pub fn c("),
    (b"&self.c[n]", b"&self.c", WrongType, b"pub fn c("),
    (
        b"pub fn x(&self)",
        b"pub fn x(&self, n: usize)",
        WrongType,
        b"pub fn x(",
    ),
    (
        b"pub fn c(&self, n: usize)",
        b"pub fn c(&self)",
        WrongType,
        b"pub fn c(",
    ),
    (
        b"&self.a }\n        pub fn c(&self, n: usize) -> &c::RegisterBlock { &self.c[n] }",
        b"&self.c }\n        pub fn c(&self, n: usize) -> &c::RegisterBlock { &self.g[n] }",
        UnknownName,
        b"pub fn c(",
    ),
    // counts
    (
        b"RegisterBlock; 2]",
        b"RegisterBlock; 0]",
        LiteralRange,
        b"c: [c::",
    ),
    (b"16, 2, n)", b"16, 0, n)", LiteralRange, b"pub fn y("),
];

// Constants and readers.
const READERS: &[Edit<'static>] = &[
    (
        b"RESET_VALUE: u8",
        b"RESET_VALUE: u16",
        WrongType,
        b"pub mod a {",
    ),
    (
        b"ZERO_TO_MODIFY: u8",
        b"ZERO_TO_MODIFY: u32",
        WrongType,
        b"pub mod a {",
    ),
    (b"u8 = 0xff", b"u8 = 0x100", LiteralRange, b"pub mod a {"),
    (
        b"0x0; }\n        impl Resettable for Spec { const RESET_VALUE: u8",
        b"0x100; }\n        impl Resettable for Spec { const RESET_VALUE: u16",
        WrongType,
        b"pub mod a {",
    ),
    // readers
    (
        b"-> BitReader<E_F>",
        b"-> BitReader<G_F>",
        UnknownName,
        b"pub fn e(&self",
    ),
    (b">> 7)", b">> 8)", LiteralRange, b"pub fn e(&self"),
    (b"& 0x1)", b"& 0x100)", LiteralRange, b"pub fn e(&self"),
    (b"& 0xff)", b"& 0x100)", LiteralRange, b"pub fn m(&self"),
    (
        b">> 7) & 0x1) != 0x0) }\n            pub fn m(&self) -> FieldReader<M_F",
        b">> 8) & 0x1) != 0x0) }\n            pub fn m(&self) -> FieldReader<G_F",
        UnknownName,
        b"pub fn m(&self",
    ),
    // of two readers the first
    (
        b">> 7) & 0x1) != 0x0) }\n            pub fn m(&self) -> FieldReader<M_F, u8> { FieldReader::new(((self.bits >> 0)",
        b">> 8) & 0x1) != 0x0) }\n            pub fn m(&self) -> FieldReader<M_F, u8> { FieldReader::new(((self.bits >> 9)",
        LiteralRange,
        b"pub fn e(&self",
    ),
];

// Writers, and blocks of values.
const WRITERS: &[Edit<'static>] = &[
    (
        b"-> BitWriter<'_, Spec, E_F>",
        b"-> BitWriter<'_, Spec, G_F>",
        UnknownName,
        b"pub fn e(&mut",
    ),
    (b"self, 7)", b"self, 8)", LiteralRange, b"pub fn e(&mut"),
    (
        b"FieldWriter::new(self, 0)",
        b"FieldWriter::new(self, 1)",
        LiteralRange,
        b"pub fn m(&mut",
    ),
    (
        b"u8, 8> { FieldWriter",
        b"u8, 0> { FieldWriter",
        LiteralRange,
        b"pub fn m(&mut",
    ),
    // blocks of values
    (
        b"impl BitReader<E_F>",
        b"impl BitReader<M_F>",
        UnknownName,
        b"impl BitReader<M_F>",
    ),
    (
        b"impl<'a> BitWriter<",
        b"impl<'a> BitWriter1C<",
        UnknownName,
        b"impl<'a> BitWriter1C<",
    ),
    (
        b"impl<'a> FieldWriter<'a, Spec, M_F, u8, 8>",
        b"impl<'a> FieldWriter<'a, Spec, M_F, u8, 7>",
        UnknownName,
        b"impl<'a> FieldWriter<",
    ),
    (
        b"self.bits() == 0xff",
        b"self.bits() == 0x100",
        LiteralRange,
        b"pub fn is_fast(",
    ),
    (
        b"self.bits(0xff)",
        b"self.bits(0x100)",
        LiteralRange,
        b"pub fn fast(",
    ),
    (
        b"self.bits() == 0xff }\n        }\n        impl<'a> BitWriter<",
        b"self.bits() == 0x100 }\n        }\n        impl<'a> BitWriter1C<",
        UnknownName,
        b"impl<'a> BitWriter1C<",
    ),
];

// Names of the prelude, directions, and ends of registers.
const CALLS: &[Edit<'static>] = &[
    (b"pub fn x(", b"pub fn at(", DoubleName, b"pub fn at("),
    (
        b"pub fn e(&self)",
        b"pub fn bits(&self)",
        DoubleName,
        b"pub fn bits(&self)",
    ),
    (
        b"pub fn m(&mut",
        b"pub fn modify(&mut",
        DoubleName,
        b"pub fn modify(&mut",
    ),
    (b"pub fn fast(", b"pub fn bit(", DoubleName, b"pub fn bit("),
    // directions
    (b"impl Readable for Spec {}", b"", WrongType, b"pub mod a {"),
    (
        b"impl Writable for Spec { const ZERO_TO_MODIFY: u8 = 0x0; const ONE_TO_MODIFY: u8 = 0x0; }",
        b"",
        WrongType,
        b"pub mod a {",
    ),
    (
        b"impl R<Spec> {\n            }",
        b"",
        WrongType,
        b"pub mod d {",
    ),
    (
        b"impl R<Spec> {\n            }",
        b"impl R<Spec> {} impl W<Spec> {}",
        WrongType,
        b"pub mod d {",
    ),
    // ends of registers: the last begins 0x30 bytes behind its slot
    (
        b"0xffffffffffffff00",
        b"0xffffffffffffffd0",
        TooLarge,
        b"pub S",
    ),
    (b"at(self, 0x20)", b"at(self, 0x100)", TooLarge, b"pub S"),
    (
        b"0x20, 16, 2,",
        b"0x20, 9223372036854775808, 3,",
        TooLarge,
        b"pub S",
    ),
];

// The same of the text of version 2.
const INDEXED: &[Edit<'static>] = &[
    // counts
    (
        b"at_bit(0, 4, 8, n)) &",
        b"at_bit(0, 4, 0, n)) &",
        LiteralRange,
        b"pub fn ch(&self",
    ),
    (
        b"self, at_bit(0, 4, 8",
        b"self, at_bit(0, 4, 0",
        LiteralRange,
        b"pub fn ch(&mut",
    ),
    // the last bit of a reader
    (
        b"at_bit(0, 4, 8, n)) &",
        b"at_bit(4, 4, 8, n)) &",
        LiteralRange,
        b"pub fn ch(&self",
    ),
    (
        b"at_bit(0, 4, 8, n)) &",
        b"at_bit(0, 4, 9, n)) &",
        LiteralRange,
        b"pub fn ch(&self",
    ),
    (
        b"at_bit(0, 8, 4, n)) &",
        b"at_bit(0, 9223372036854775808, 3, n)) &",
        LiteralRange,
        b"pub fn lv(&self",
    ),
    // the last bits of a writer, and its width
    (
        b"self, at_bit(0, 4, 8",
        b"self, at_bit(4, 4, 8",
        LiteralRange,
        b"pub fn ch(&mut",
    ),
    (
        b"self, at_bit(0, 8, 4",
        b"self, at_bit(7, 8, 4",
        LiteralRange,
        b"pub fn lv(&mut",
    ),
    (
        b"self, at_bit(0, 8, 4",
        b"self, at_bit(0, 18446744073709551615, 2",
        LiteralRange,
        b"pub fn lv(&mut",
    ),
    (
        b"u8, 2> { FieldWriter::new(self, at_bit(0, 8, 4",
        b"u8, 9> { FieldWriter::new(self, at_bit(0, 8, 3",
        LiteralRange,
        b"pub fn lv(&mut",
    ),
    // one more name of the prelude
    (
        b"pub fn en(",
        b"pub fn at_bit(",
        DoubleName,
        b"pub fn at_bit(",
    ),
    (
        b"pub fn lv(&mut",
        b"pub fn at_bit(&mut",
        DoubleName,
        b"pub fn at_bit(&mut",
    ),
];

/// Whether the text breaks a rule of the kind, first at the item that begins so.
pub(crate) fn breaks(alloc: Global, text: &[u8], kind: CrateTyping, item: &[u8]) -> bool {
    match typed(alloc, text) {
        Err(CrateFault::Typing { at, kind: found }) => {
            found == kind && place_of(text, item) == Some(at)
        }
        _ => false,
    }
}

/// Whether the text breaks a rule so where it is edited.
fn breaks_where_edited(alloc: Global, text: &[u8], edit: Edit<'_>) -> Result<bool, NoMemory> {
    let (old, new, kind, item) = edit;
    let text = edited(alloc, text, old, new)?;
    Ok(breaks(alloc, text.as_slice(), kind, item))
}

#[test]
fn distinct_names(rt: HostRuntime) -> Result<(), Fail> {
    for (place, &edit) in NAMES.iter().enumerate() {
        assert!(rt; breaks_where_edited(rt.alloc(), VALUED, edit)?, "{place}");
    }
    Ok(())
}

#[test]
fn named_modules(rt: HostRuntime) -> Result<(), Fail> {
    for (place, &edit) in MODULES.iter().enumerate() {
        assert!(rt; breaks_where_edited(rt.alloc(), VALUED, edit)?, "{place}");
    }
    Ok(())
}

#[test]
fn bodies_and_counts(rt: HostRuntime) -> Result<(), Fail> {
    for (place, &edit) in BODIES.iter().enumerate() {
        assert!(rt; breaks_where_edited(rt.alloc(), VALUED, edit)?, "{place}");
    }
    Ok(())
}

#[test]
fn constants_and_readers(rt: HostRuntime) -> Result<(), Fail> {
    for (place, &edit) in READERS.iter().enumerate() {
        assert!(rt; breaks_where_edited(rt.alloc(), VALUED, edit)?, "{place}");
    }
    Ok(())
}

#[test]
fn writers_and_values(rt: HostRuntime) -> Result<(), Fail> {
    for (place, &edit) in WRITERS.iter().enumerate() {
        assert!(rt; breaks_where_edited(rt.alloc(), VALUED, edit)?, "{place}");
    }
    Ok(())
}

#[test]
fn calls_directions_and_ends(rt: HostRuntime) -> Result<(), Fail> {
    for (place, &edit) in CALLS.iter().enumerate() {
        assert!(rt; breaks_where_edited(rt.alloc(), VALUED, edit)?, "{place}");
    }
    Ok(())
}

#[test]
fn indexed_calls(rt: HostRuntime) -> Result<(), Fail> {
    for (place, &edit) in INDEXED.iter().enumerate() {
        assert!(rt; breaks_where_edited(rt.alloc(), CHANNELS, edit)?, "{place}");
    }
    Ok(())
}

#[test]
fn nine_in_the_worked_text(rt: HostRuntime) -> Result<(), Fail> {
    // the last of nine would be bit 33
    let nine = worked_array(rt.alloc(), b"9")?;
    let kind = LiteralRange;
    assert!(rt; breaks(rt.alloc(), nine.as_slice(), kind, b"pub fn f1(&mut"));
    Ok(())
}
