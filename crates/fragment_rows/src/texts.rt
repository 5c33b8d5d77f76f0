ghost use Rattle.std.specs.Prelude.{◌≡◌, IfOk, None};
ghost use Rattle.frag_sem.specs.ScriptTyping.{script_fault};
ghost use Rattle.frag_sem.specs.TextSurface.{text_surface};
ghost use Rattle.frag_tree.specs.Trees.{crate_tree};

use crate::crate_text::EXAMPLE;
use frag_parse::parse_crate;
use frag_script::{ScriptFault, parse_script};
use frag_types::{CrateFault, TypedCrate, TypedScript, type_crate, type_script};
use pac_base::NoMemory;
use std::alloc::Global;

/// A text of version 1 that fits, with numbers that just fit: a register of 8 bits with a bit and a number,
/// whose values have calls, a cluster that is an array, and two accessors with places of their own.
pub(crate) const VALUED: &[u8] = b"use crate::generic::*;
pub struct Peripherals {
    pub S: Periph<t::RegisterBlock, 0xffffffffffffff00>,
    pub T: Periph<t::RegisterBlock, 0x40000000>,
}
pub mod t {
    use crate::generic::*;
    #[repr(C)]
    pub struct RegisterBlock {
        a: Reg<a::Spec>,
        _reserved0: [u8; 3],
        c: [c::RegisterBlock; 2],
    }
    impl RegisterBlock {
        pub fn a(&self) -> &Reg<a::Spec> { &self.a }
        pub fn c(&self, n: usize) -> &c::RegisterBlock { &self.c[n] }
        pub fn x(&self) -> &Reg<a::Spec> { at(self, 0x20) }
        pub fn y(&self, n: usize) -> &Reg<a::Spec> { at_index(self, 0x20, 16, 2, n) }
    }
    pub mod a {
        use crate::generic::*;
        pub struct Spec;
        impl RegisterSpec for Spec { type Ux = u8; }
        impl Readable for Spec {}
        impl Writable for Spec { const ZERO_TO_MODIFY: u8 = 0x0; const ONE_TO_MODIFY: u8 = 0x0; }
        impl Resettable for Spec { const RESET_VALUE: u8 = 0xff; }
        pub struct E_F;
        pub struct M_F;
        impl R<Spec> {
            pub fn e(&self) -> BitReader<E_F> { BitReader::new(((self.bits >> 7) & 0x1) != 0x0) }
            pub fn m(&self) -> FieldReader<M_F, u8> { FieldReader::new(((self.bits >> 0) & 0xff) as u8) }
        }
        impl W<Spec> {
            pub fn e(&mut self) -> BitWriter<'_, Spec, E_F> { BitWriter::new(self, 7) }
            pub fn m(&mut self) -> FieldWriter<'_, Spec, M_F, u8, 8> { FieldWriter::new(self, 0) }
        }
        impl BitReader<E_F> {
            pub fn is_on(&self) -> bool { self.bit() == true }
        }
        impl FieldReader<M_F, u8> {
            pub fn is_fast(&self) -> bool { self.bits() == 0xff }
        }
        impl<'a> BitWriter<'a, Spec, E_F> {
            pub fn on(self) -> &'a mut W<Spec> { self.bit(true) }
        }
        impl<'a> FieldWriter<'a, Spec, M_F, u8, 8> {
            pub fn fast(self) -> &'a mut W<Spec> { self.bits(0xff) }
        }
    }
    pub mod c {
        use crate::generic::*;
        #[repr(C)]
        pub struct RegisterBlock {
            d: Reg<d::Spec>,
        }
        impl RegisterBlock {
            pub fn d(&self) -> &Reg<d::Spec> { &self.d }
        }
        pub mod d {
            use crate::generic::*;
            pub struct Spec;
            impl RegisterSpec for Spec { type Ux = u32; }
            impl Readable for Spec {}
            impl Resettable for Spec { const RESET_VALUE: u32 = 0x0; }
            impl R<Spec> {
            }
        }
    }
}
";

/// A text of version 2 that fits, with a bit and a number whose calls take an index.
pub(crate) const CHANNELS: &[u8] = b"pub const CRATE_TEXT: u32 = 0x2;
use crate::generic::*;
pub struct Peripherals {
    pub D: Periph<d::RegisterBlock, 0x50000000>,
}
pub mod d {
    use crate::generic::*;
    #[repr(C)]
    pub struct RegisterBlock {
        en: Reg<en::Spec>,
    }
    impl RegisterBlock {
        pub fn en(&self) -> &Reg<en::Spec> { &self.en }
    }
    pub mod en {
        use crate::generic::*;
        pub struct Spec;
        impl RegisterSpec for Spec { type Ux = u32; }
        impl Readable for Spec {}
        impl Writable for Spec { const ZERO_TO_MODIFY: u32 = 0x0; const ONE_TO_MODIFY: u32 = 0x10; }
        impl Resettable for Spec { const RESET_VALUE: u32 = 0x113; }
        pub struct CH_F;
        pub struct LV_F;
        impl R<Spec> {
            pub fn ch(&self, n: usize) -> BitReader<CH_F> { BitReader::new(((self.bits >> at_bit(0, 4, 8, n)) & 0x1) != 0x0) }
            pub fn lv(&self, n: usize) -> FieldReader<LV_F, u8> { FieldReader::new(((self.bits >> at_bit(0, 8, 4, n)) & 0x3) as u8) }
        }
        impl W<Spec> {
            pub fn ch(&mut self, n: usize) -> BitWriter<'_, Spec, CH_F> { BitWriter::new(self, at_bit(0, 4, 8, n)) }
            pub fn lv(&mut self, n: usize) -> FieldWriter<'_, Spec, LV_F, u8, 2> { FieldWriter::new(self, at_bit(0, 8, 4, n)) }
        }
    }
}
";

/// A text of version 1 that fits, with registers of all four widths over the same bytes.
pub(crate) const OVERLAID: &[u8] = b"use crate::generic::*;
pub struct Peripherals {
    pub T: Periph<t::RegisterBlock, 0x40000000>,
}
pub mod t {
    use crate::generic::*;
    #[repr(C)]
    pub struct RegisterBlock {
        a: Reg<a::Spec>,
    }
    impl RegisterBlock {
        pub fn a(&self) -> &Reg<a::Spec> { &self.a }
        pub fn b(&self) -> &Reg<b::Spec> { at(self, 0x0) }
        pub fn h(&self) -> &Reg<h::Spec> { at(self, 0x2) }
        pub fn q(&self) -> &Reg<q::Spec> { at(self, 0x0) }
    }
    pub mod a {
        use crate::generic::*;
        pub struct Spec;
        impl RegisterSpec for Spec { type Ux = u32; }
        impl Readable for Spec {}
        impl Writable for Spec { const ZERO_TO_MODIFY: u32 = 0x0; const ONE_TO_MODIFY: u32 = 0x0; }
        impl Resettable for Spec { const RESET_VALUE: u32 = 0x11223344; }
        impl R<Spec> {
        }
        impl W<Spec> {
        }
    }
    pub mod b {
        use crate::generic::*;
        pub struct Spec;
        impl RegisterSpec for Spec { type Ux = u8; }
        impl Readable for Spec {}
        impl Writable for Spec { const ZERO_TO_MODIFY: u8 = 0x0; const ONE_TO_MODIFY: u8 = 0x0; }
        impl Resettable for Spec { const RESET_VALUE: u8 = 0xff; }
        impl R<Spec> {
        }
        impl W<Spec> {
        }
    }
    pub mod h {
        use crate::generic::*;
        pub struct Spec;
        impl RegisterSpec for Spec { type Ux = u16; }
        impl Readable for Spec {}
        impl Writable for Spec { const ZERO_TO_MODIFY: u16 = 0x0; const ONE_TO_MODIFY: u16 = 0x0; }
        impl Resettable for Spec { const RESET_VALUE: u16 = 0x7788; }
        impl R<Spec> {
        }
        impl W<Spec> {
        }
    }
    pub mod q {
        use crate::generic::*;
        pub struct Spec;
        impl RegisterSpec for Spec { type Ux = u64; }
        impl Readable for Spec {}
        impl Writable for Spec { const ZERO_TO_MODIFY: u64 = 0x0; const ONE_TO_MODIFY: u64 = 0x0; }
        impl Resettable for Spec { const RESET_VALUE: u64 = 0x102030405060708; }
        impl R<Spec> {
        }
        impl W<Spec> {
        }
    }
}
";

/// The part of the text for the vendor's description, its patch applied, that the vendor's script calls.
pub(crate) const TIMERS: &[u8] = b"use crate::generic::*;
pub struct Peripherals {
    pub TIM2: Periph<tim::RegisterBlock, 0x40000000>,
    pub TIM3: Periph<tim::RegisterBlock, 0x40000400>,
}
pub mod tim {
    use crate::generic::*;
    #[repr(C)]
    pub struct RegisterBlock {
        cr1: Reg<cr1::Spec>,
        _reserved0: [u8; 14],
        sr: Reg<sr::Spec>,
        _reserved1: [u8; 32],
        ccr: [Reg<ccr::Spec>; 2],
    }
    impl RegisterBlock {
        pub fn cr1(&self) -> &Reg<cr1::Spec> { &self.cr1 }
        pub fn sr(&self) -> &Reg<sr::Spec> { &self.sr }
        pub fn ccr(&self, n: usize) -> &Reg<ccr::Spec> { &self.ccr[n] }
    }
    pub mod cr1 {
        use crate::generic::*;
        pub struct Spec;
        impl RegisterSpec for Spec { type Ux = u16; }
        impl Readable for Spec {}
        impl Writable for Spec { const ZERO_TO_MODIFY: u16 = 0x0; const ONE_TO_MODIFY: u16 = 0x0; }
        impl Resettable for Spec { const RESET_VALUE: u16 = 0x0; }
        pub struct CEN_F;
        pub struct CKD_F;
        impl R<Spec> {
            pub fn cen(&self) -> BitReader<CEN_F> { BitReader::new(((self.bits >> 0) & 0x1) != 0x0) }
            pub fn ckd(&self) -> FieldReader<CKD_F, u8> { FieldReader::new(((self.bits >> 8) & 0x3) as u8) }
        }
        impl W<Spec> {
            pub fn cen(&mut self) -> BitWriter<'_, Spec, CEN_F> { BitWriter::new(self, 0) }
            pub fn ckd(&mut self) -> FieldWriter<'_, Spec, CKD_F, u8, 2> { FieldWriter::new(self, 8) }
        }
        impl BitReader<CEN_F> {
            pub fn is_disabled(&self) -> bool { self.bit() == false }
            pub fn is_enabled(&self) -> bool { self.bit() == true }
        }
        impl<'a> BitWriter<'a, Spec, CEN_F> {
            pub fn disabled(self) -> &'a mut W<Spec> { self.bit(false) }
            pub fn enabled(self) -> &'a mut W<Spec> { self.bit(true) }
        }
    }
    pub mod sr {
        use crate::generic::*;
        pub struct Spec;
        impl RegisterSpec for Spec { type Ux = u32; }
        impl Readable for Spec {}
        impl Writable for Spec { const ZERO_TO_MODIFY: u32 = 0x1; const ONE_TO_MODIFY: u32 = 0x0; }
        impl Resettable for Spec { const RESET_VALUE: u32 = 0x0; }
        pub struct UIF_F;
        impl R<Spec> {
            pub fn uif(&self) -> BitReader<UIF_F> { BitReader::new(((self.bits >> 0) & 0x1) != 0x0) }
        }
        impl W<Spec> {
            pub fn uif(&mut self) -> BitWriter0C<'_, Spec, UIF_F> { BitWriter0C::new(self, 0) }
        }
    }
    pub mod ccr {
        use crate::generic::*;
        pub struct Spec;
        impl RegisterSpec for Spec { type Ux = u32; }
        impl Readable for Spec {}
        impl Writable for Spec { const ZERO_TO_MODIFY: u32 = 0x0; const ONE_TO_MODIFY: u32 = 0x0; }
        impl Resettable for Spec { const RESET_VALUE: u32 = 0x0; }
        impl R<Spec> {
        }
        impl W<Spec> {
        }
    }
}
";

/// The crate of a text, where it fits. A text of no crate is answered with `Syntax`.
pub(crate) fn typed(alloc: Global, text: &[u8]) -> Result<TypedCrate, CrateFault> {
    let krate = match parse_crate(alloc, text) {
        Ok(krate) => krate,
        Err(_) => return Err(CrateFault::Syntax { at: 0 }),
    };
    match type_crate(alloc, krate) {
        Ok(typed) => Ok(typed),
        Err(back) => Err(back.fault),
    }
}

/// The script of a text, where it fits the crate.
pub(crate) fn typed_script(
    alloc: Global,
    krate: &TypedCrate,
    text: &[u8],
) -> Result<TypedScript, ScriptFault>
    ensures { IfOk result (λ typed. script_fault (text_surface (crate_tree krate.now)) typed ≡ None) }
{
    if text.len() > 67_108_864 {
        return Err(ScriptFault::TooLong { count: 0 });
    }
    let script = parse_script(alloc, text)?;
    match type_script(alloc, krate, script) {
        Ok(typed) => Ok(typed),
        Err(back) => Err(back.fault),
    }
}

/// The parts one behind the other.
pub(crate) fn joined(alloc: Global, parts: &[&[u8]]) -> Result<Vec<u8>, NoMemory> {
    let mut text = Vec::new(alloc);
    for part in parts {
        text.extend_from_slice(part)?;
    }
    Ok(text)
}

/// What stands in front of a part of a text, where it stands first, and what stands behind it.
fn split_around<'a>(text: &'a [u8], part: &[u8]) -> Option<(&'a [u8], &'a [u8])> {
    for place in 0..text.len() {
        let (before, rest) = text.split_at(place);
        if let Some(after) = rest.strip_prefix(part) {
            return Some((before, after));
        }
    }
    None
}

/// The byte at which a part of a text first begins, if it stands in it.
pub(crate) fn place_of(text: &[u8], part: &[u8]) -> Option<usize> {
    match split_around(text, part) {
        Some((before, _)) => Some(before.len()),
        None => None,
    }
}

/// The text with some words in the place of others, once. Nothing, where it doesn't have them.
pub(crate) fn edited(
    alloc: Global,
    text: &[u8],
    old: &[u8],
    new: &[u8],
) -> Result<Vec<u8>, NoMemory> {
    match split_around(text, old) {
        Some((before, after)) => joined(alloc, &[before, new, after]),
        None => Ok(Vec::new(alloc)),
    }
}

/// The text as one of version 2.
pub(crate) fn of_version_two(alloc: Global, text: &[u8]) -> Result<Vec<u8>, NoMemory> {
    joined(alloc, &[b"pub const CRATE_TEXT: u32 = 0x2;\n", text])
}

/// The worked text, in which the second bit is an array of so many, each four bits behind the one before, for
/// writes.
pub(crate) fn worked_array(alloc: Global, count: &[u8]) -> Result<Vec<u8>, NoMemory> {
    let call = edited(alloc, EXAMPLE, b"f1(&mut self)", b"f1(&mut self, n: usize)")?;
    let spot = joined(alloc, &[b"self, at_bit(1, 4, ", count, b", n))"])?;
    let text = edited(alloc, call.as_slice(), b"self, 1)", spot.as_slice())?;
    of_version_two(alloc, text.as_slice())
}
