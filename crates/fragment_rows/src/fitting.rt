use crate::texts::{CHANNELS, VALUED, edited, joined, typed};
use crate::typing::breaks;
use frag_types::CrateTyping::TooLarge;
use pac_base::NoMemory;
use std::alloc::Global;
use std::test::Fail;

// What is put in the place of what in the text of version 1, where it goes on fitting.
const FITS: &[(&[u8], &[u8])] = &[
    (b"pub fn is_fast(", b"pub fn is_on("),
    (b"[u8; 3]", b"[u8; 0]"),
    (b"16, 2, n)", b"0, 1, n)"),
    (b"pub fn x(", b"pub fn at_bit("),
    (b"pub S: ", b"pub read: "),
    (b"& 0x1)", b"& 0xff)"),
    (b"0xffffffffffffff00", b"0xffffffffffffffcf"),
];

// The same of the text of version 2.
const FITS_INDEXED: &[(&[u8], &[u8])] = &[
    (b"at_bit(0, 4, 8, n)) &", b"at_bit(3, 4, 8, n)) &"),
    (
        b"at_bit(0, 4, 8, n)) &",
        b"at_bit(31, 18446744073709551615, 1, n)) &",
    ),
    (b"self, at_bit(0, 4, 8", b"self, at_bit(3, 4, 8"),
    (b"self, at_bit(0, 8, 4", b"self, at_bit(6, 8, 4"),
    (b"u8, 2> {", b"u8, 8> {"),
];

fn fits(alloc: Global, text: &[u8]) -> bool {
    typed(alloc, text).is_ok()
}

// Whether the text fits where it is edited.
fn fits_where_edited(alloc: Global, text: &[u8], old: &[u8], new: &[u8]) -> Result<bool, NoMemory> {
    let text = edited(alloc, text, old, new)?;
    Ok(fits(alloc, text.as_slice()))
}

// The texts, with their edits. The first stands for the text as it is.
const EDITS: &[(&[u8], &[(&[u8], &[u8])])] = &[
    (VALUED, &[(b"", b"")]),
    (VALUED, FITS),
    (CHANNELS, &[(b"", b"")]),
    (CHANNELS, FITS_INDEXED),
];

#[test]
fn what_just_fits(rt: HostRuntime) -> Result<(), Fail> {
    for &(text, edits) in EDITS {
        for (place, &(old, new)) in edits.iter().enumerate() {
            assert!(rt; fits_where_edited(rt.alloc(), text, old, new)?, "{place}");
        }
    }
    Ok(())
}

// A block of 2^64 bytes, and one more.
const LARGEST: &[u8] =
    b"use crate::generic::*; pub struct Peripherals {} pub mod t { use crate::generic::*; #[repr(C)] pub struct RegisterBlock { a: [u8; 18446744073709551615], b: [u8; 1], } impl RegisterBlock {} }";

#[test]
fn a_block_has_at_most_all_bytes(rt: HostRuntime) -> Result<(), Fail> {
    assert!(rt; fits(rt.alloc(), LARGEST));
    let text = edited(rt.alloc(), LARGEST, b"b: [u8; 1]", b"b: [u8; 2]")?;
    assert!(rt; breaks(rt.alloc(), text.as_slice(), TooLarge, b"pub mod t"));
    Ok(())
}

const OPENS: &[u8] =
    b"pub mod b { use crate::generic::*; #[repr(C)] pub struct RegisterBlock { b: b::RegisterBlock, } impl RegisterBlock { pub fn b(&self) -> &b::RegisterBlock { &self.b } pub fn c(&self) -> &b::RegisterBlock { &self.b } } ";

const BOTTOM: &[u8] =
    b"pub mod b { use crate::generic::*; #[repr(C)] pub struct RegisterBlock { r: Reg<r::Spec>, } impl RegisterBlock { pub fn r(&self) -> &Reg<r::Spec> { &self.r } } pub mod r { use crate::generic::*; pub struct Spec; impl RegisterSpec for Spec { type Ux = u32; } impl Readable for Spec {} impl Resettable for Spec { const RESET_VALUE: u32 = 0x0; } impl R<Spec> {} } ";

const BEGINS: &[u8] =
    b"use crate::generic::*; pub struct Peripherals { pub T: Periph<b::RegisterBlock, ";

// Modules 64 deep, each block with two accessors of the next, so that 2^62 paths lead to the one register,
// at the address of the slot.
fn doubled(alloc: Global, address: &[u8]) -> Result<Vec<u8>, NoMemory> {
    let mut text = joined(alloc, &[BEGINS, address, b">, } "])?;
    for _ in 0..62 {
        text.extend_from_slice(OPENS)?;
    }
    text.extend_from_slice(BOTTOM)?;
    for _ in 0..63 {
        text.push(b'}')?;
    }
    Ok(text)
}

#[test]
fn paths_that_double_64_deep(rt: HostRuntime) -> Result<(), Fail> {
    let most = doubled(rt.alloc(), b"0xfffffffffffffffc")?;
    assert!(rt; fits(rt.alloc(), most.as_slice()));
    let more = doubled(rt.alloc(), b"0xfffffffffffffffd")?;
    assert!(rt; breaks(rt.alloc(), more.as_slice(), TooLarge, b"pub T"));
    Ok(())
}
