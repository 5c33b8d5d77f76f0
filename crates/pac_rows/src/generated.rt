use crate::harness::{
    Failing, ONE_REGISTER, answers, answers_where, described, joined, listing, refusal,
};
use pac_base::NoMemory;
use std::alloc::Global;
use std::test::Fail;

const HEAD: &[u8] = b"use crate::generic::*;

pub struct Peripherals {
";

const VERSION_TWO: &[u8] = b"pub const CRATE_TEXT: u32 = 0x2;\n";

// Registers of `T`, the line of the version in the text of its crate, if there is one, and what stands behind its first
// lines.
const GENERATED: &[(&str, &[u8], &[u8], &[u8])] = &[
    (
        "one_to_clear_mask",
        b"<register><name>SR</name><addressOffset>0</addressOffset><resetValue>3</resetValue><fields><field><name>F0</name><bitOffset>0</bitOffset><bitWidth>1</bitWidth><modifiedWriteValues>oneToClear</modifiedWriteValues></field><field><name>F1</name><bitOffset>1</bitOffset><bitWidth>1</bitWidth></field></fields></register>",
        b"",
        b"        sr: Reg<sr::Spec>,
    }
    impl RegisterBlock {
        pub fn sr(&self) -> &Reg<sr::Spec> { &self.sr }
    }
    pub mod sr {
        use crate::generic::*;
        pub struct Spec;
        impl RegisterSpec for Spec { type Ux = u32; }
        impl Readable for Spec {}
        impl Writable for Spec { const ZERO_TO_MODIFY: u32 = 0x0; const ONE_TO_MODIFY: u32 = 0x1; }
        impl Resettable for Spec { const RESET_VALUE: u32 = 0x3; }
        pub struct F0_F;
        pub struct F1_F;
        impl R<Spec> {
            pub fn f0(&self) -> BitReader<F0_F> { BitReader::new(((self.bits >> 0) & 0x1) != 0x0) }
            pub fn f1(&self) -> BitReader<F1_F> { BitReader::new(((self.bits >> 1) & 0x1) != 0x0) }
        }
        impl W<Spec> {
            pub fn f0(&mut self) -> BitWriter1C<'_, Spec, F0_F> { BitWriter1C::new(self, 0) }
            pub fn f1(&mut self) -> BitWriter<'_, Spec, F1_F> { BitWriter::new(self, 1) }
        }
    }
}
",
    ),
    (
        "a_gap_an_array_and_an_alternate",
        b"<register><name>CR</name><addressOffset>0</addressOffset><size>8</size><access>write-only</access></register><register><dim>4</dim><dimIncrement>4</dimIncrement><name>CH[%s]</name><addressOffset>12</addressOffset><access>read-only</access></register><register><name>ALT</name><addressOffset>12</addressOffset><access>read-only</access></register>",
        b"",
        b"        cr: Reg<cr::Spec>,
        _reserved0: [u8; 11],
        ch: [Reg<ch::Spec>; 4],
    }
    impl RegisterBlock {
        pub fn cr(&self) -> &Reg<cr::Spec> { &self.cr }
        pub fn ch(&self, n: usize) -> &Reg<ch::Spec> { &self.ch[n] }
        pub fn alt(&self) -> &Reg<alt::Spec> { at(self, 0xc) }
    }
    pub mod cr {
        use crate::generic::*;
        pub struct Spec;
        impl RegisterSpec for Spec { type Ux = u8; }
        impl Writable for Spec { const ZERO_TO_MODIFY: u8 = 0x0; const ONE_TO_MODIFY: u8 = 0x0; }
        impl Resettable for Spec { const RESET_VALUE: u8 = 0x0; }
        impl W<Spec> {
        }
    }
    pub mod ch {
        use crate::generic::*;
        pub struct Spec;
        impl RegisterSpec for Spec { type Ux = u32; }
        impl Readable for Spec {}
        impl Resettable for Spec { const RESET_VALUE: u32 = 0x0; }
        impl R<Spec> {
        }
    }
    pub mod alt {
        use crate::generic::*;
        pub struct Spec;
        impl RegisterSpec for Spec { type Ux = u32; }
        impl Readable for Spec {}
        impl Resettable for Spec { const RESET_VALUE: u32 = 0x0; }
        impl R<Spec> {
        }
    }
}
",
    ),
    (
        "clusters_apart",
        b"<cluster><dim>2</dim><dimIncrement>16</dimIncrement><name>CM[%s]</name><addressOffset>4</addressOffset><register><name>type</name><addressOffset>0</addressOffset><size>16</size><access>read-only</access></register></cluster>",
        b"",
        b"    }
    impl RegisterBlock {
        pub fn cm(&self, n: usize) -> &cm::RegisterBlock { at_index(self, 0x4, 16, 2, n) }
    }
    pub mod cm {
        use crate::generic::*;
        #[repr(C)]
        pub struct RegisterBlock {
            type_: Reg<type_::Spec>,
        }
        impl RegisterBlock {
            pub fn type_(&self) -> &Reg<type_::Spec> { &self.type_ }
        }
        pub mod type_ {
            use crate::generic::*;
            pub struct Spec;
            impl RegisterSpec for Spec { type Ux = u16; }
            impl Readable for Spec {}
            impl Resettable for Spec { const RESET_VALUE: u16 = 0x0; }
            impl R<Spec> {
            }
        }
    }
}
",
    ),
    // An array of fields has one reader and one writer, which take an index.
    (
        "array_of_fields",
        b"<register><name>R</name><addressOffset>0</addressOffset><fields><field><name>LV[%s]</name><dim>4</dim><dimIncrement>8</dimIncrement><bitOffset>0</bitOffset><bitWidth>2</bitWidth></field></fields></register>",
        VERSION_TWO,
        b"        r: Reg<r::Spec>,
    }
    impl RegisterBlock {
        pub fn r(&self) -> &Reg<r::Spec> { &self.r }
    }
    pub mod r {
        use crate::generic::*;
        pub struct Spec;
        impl RegisterSpec for Spec { type Ux = u32; }
        impl Readable for Spec {}
        impl Writable for Spec { const ZERO_TO_MODIFY: u32 = 0x0; const ONE_TO_MODIFY: u32 = 0x0; }
        impl Resettable for Spec { const RESET_VALUE: u32 = 0x0; }
        pub struct LV_F;
        impl R<Spec> {
            pub fn lv(&self, n: usize) -> FieldReader<LV_F, u8> { FieldReader::new(((self.bits >> at_bit(0, 8, 4, n)) & 0x3) as u8) }
        }
        impl W<Spec> {
            pub fn lv(&mut self, n: usize) -> FieldWriter<'_, Spec, LV_F, u8, 2> { FieldWriter::new(self, at_bit(0, 8, 4, n)) }
        }
    }
}
",
    ),
];

/// What stands between the first lines and the fields of the block of `T`.
const BLOCK: &[u8] = b"    pub T: Periph<t::RegisterBlock, 0x40000000>,
}

pub mod t {
    use crate::generic::*;
    #[repr(C)]
    pub struct RegisterBlock {
";

/// Whether the crate of these registers has this text: `version`, the first lines, and `text` behind them.
fn generates(
    alloc: Global,
    registers: &[u8],
    version: &[u8],
    text: &[u8],
) -> Result<bool, NoMemory> {
    let description = described(alloc, registers)?;
    let whole = joined(alloc, &[version, HEAD, BLOCK, text])?;
    answers(
        alloc,
        &["generate", "x.svd"],
        &[("x.svd", description.as_slice())],
        &listing(whole.as_slice()),
    )
}

#[test]
fn generated_crates(rt: HostRuntime) -> Result<(), Fail> {
    for &(row, registers, version, text) in GENERATED {
        assert!(rt; generates(rt.alloc(), registers, version, text)?, "{row}");
    }
    Ok(())
}

#[test]
fn no_peripherals(rt: HostRuntime) -> Result<(), Fail> {
    let text = joined(rt.alloc(), &[HEAD, b"}\n"])?;
    assert!(rt;
        answers(
            rt.alloc(),
            &["generate", "x.svd"],
            &[("x.svd", b"<device><name>D</name><peripherals/></device>")],
            &listing(text.as_slice())
        )?
    );
    Ok(())
}

#[test]
fn a_first_write_that_fails(rt: HostRuntime) -> Result<(), Fail> {
    let failing = Failing {
        read: 0,
        write: 1,
        access: 0,
    };
    assert!(rt;
        answers_where(
            rt.alloc(),
            &["generate", "x.svd"],
            &[("x.svd", ONE_REGISTER)],
            failing,
            &refusal(4, "cannot write")
        )?
    );
    Ok(())
}
