ghost use Rattle.std.specs.Prelude.{◌≡◌};
ghost use Rattle.frag_tree.specs.Phrases.{receiver, receiver_mut, text_of};

/// A fixed text of the crate text: what stands between two names, numbers or types. Printing and
/// reading go by the same texts.
#[derive(Clone, Copy)]
pub enum Phrase {
    /// `pub const CRATE_TEXT: u32 = 0x2;`
    VersionTwo,
    /// `use crate::generic::*;`
    UsePrelude,
    /// `pub struct Peripherals {`
    OpensPeripherals,
    /// `}`
    Closer,
    /// `pub`
    Pub,
    /// `: Periph<`
    OpensPeriph,
    /// `::RegisterBlock,`
    BlockThenNext,
    /// `>,`
    ClosesSlot,
    /// `pub mod`
    PubMod,
    /// `{`
    OpensModule,
    /// `#[repr(C)]`
    ReprC,
    /// `pub struct RegisterBlock {`
    OpensStruct,
    /// `:`
    Colon,
    /// `,`
    Comma,
    /// `Reg<`
    OpensReg,
    /// `::Spec>`
    ClosesReg,
    /// `::RegisterBlock`
    OfBlock,
    /// `[u8;`
    OpensGap,
    /// `[`
    OpensArray,
    /// `;`
    Semicolon,
    /// `]`
    ClosesArray,
    /// `impl RegisterBlock {`
    BlockImpl,
    /// `pub fn`
    PubFn,
    /// `(&self) ->`
    Plain,
    /// `(&self, n: usize) ->`
    Indexed,
    /// `(&mut self) ->`
    PlainMut,
    /// `(&mut self, n: usize) ->`
    IndexedMut,
    /// `&`
    Reference,
    /// `{`
    OpensBody,
    /// `}`
    ClosesBody,
    /// `&self.`
    FieldOfSelf,
    /// `[n] }`
    ClosesMember,
    /// `at(self,`
    OpensAt,
    /// `at_index(self,`
    OpensAtIndex,
    /// `,`
    ThenNext,
    /// `, n) }`
    ClosesAtIndex,
    /// `) }`
    ClosesCall,
    /// `pub struct Spec;`
    SpecStruct,
    /// `impl RegisterSpec for Spec { type Ux =`
    OpensSpec,
    /// `; }`
    ClosesSpec,
    /// `impl Readable for Spec {}`
    ReadableImpl,
    /// `impl Writable for Spec {`
    WritableImpl,
    /// `const ZERO_TO_MODIFY:`
    ZeroToModify,
    /// `const ONE_TO_MODIFY:`
    OneToModify,
    /// `impl Resettable for Spec {`
    ResettableImpl,
    /// `const RESET_VALUE:`
    ResetValue,
    /// `=`
    Equals,
    /// `pub struct`
    PubStruct,
    /// `;`
    ClosesMarker,
    /// `impl R<Spec> {`
    ReadersImpl,
    /// `impl W<Spec> {`
    WritersImpl,
    /// `at_bit(`
    OpensAtBit,
    /// `, n)`
    ClosesAtBit,
    /// `BitReader<`
    OfBitReader,
    /// `> { BitReader::new(((self.bits >>`
    NewBitReader,
    /// `) &`
    ThenMask,
    /// `) != 0x0) }`
    ClosesBitReader,
    /// `FieldReader<`
    OfFieldReader,
    /// `> { FieldReader::new(((self.bits >>`
    NewFieldReader,
    /// `) as`
    ThenCast,
    /// `FieldWriter<'_, Spec,`
    OfFieldWriter,
    /// `> { FieldWriter::new(self,`
    NewFieldWriter,
    /// `<'_, Spec,`
    OfSpec,
    /// `> {`
    ThenBody,
    /// `::new(self,`
    NewOnSelf,
    /// `(&self) -> bool { self.bit() ==`
    TestsBit,
    /// `(&self) -> bool { self.bits() ==`
    TestsNumber,
    /// `(self) -> &'a mut W<Spec> { self.bit(`
    WritesBit,
    /// `(self) -> &'a mut W<Spec> { self.bits(`
    WritesNumber,
    /// `impl BitReader<`
    BitReaderImpl,
    /// `impl FieldReader<`
    FieldReaderImpl,
    /// `impl<'a>`
    WriterImpl,
    /// `impl<'a> FieldWriter<'a, Spec,`
    FieldWriterImpl,
    /// `<'a, Spec,`
    OfSpecInImpl,
    /// `> {`
    OpensCalls,
}

impl Phrase {
    /// How the text is spelled.
    pub fn text(self) -> &'static [u8]
        ensures { result.now ≡ text_of self }
    {
        match self {
            Phrase::VersionTwo => b"pub const CRATE_TEXT: u32 = 0x2;",
            Phrase::UsePrelude => b"use crate::generic::*;",
            Phrase::OpensPeripherals => b"pub struct Peripherals {",
            Phrase::Closer => b"}",
            Phrase::Pub => b"pub ",
            Phrase::OpensPeriph => b": Periph<",
            Phrase::BlockThenNext => b"::RegisterBlock, ",
            Phrase::ClosesSlot => b">,",
            Phrase::PubMod => b"pub mod ",
            Phrase::OpensModule => b" {",
            Phrase::ReprC => b"#[repr(C)]",
            Phrase::OpensStruct => b"pub struct RegisterBlock {",
            Phrase::Colon => b": ",
            Phrase::Comma => b",",
            Phrase::OpensReg => b"Reg<",
            Phrase::ClosesReg => b"::Spec>",
            Phrase::OfBlock => b"::RegisterBlock",
            Phrase::OpensGap => b"[u8; ",
            Phrase::OpensArray => b"[",
            Phrase::Semicolon => b"; ",
            Phrase::ClosesArray => b"]",
            Phrase::BlockImpl => b"impl RegisterBlock {",
            Phrase::PubFn => b"pub fn ",
            Phrase::Plain => b"(&self) -> ",
            Phrase::Indexed => b"(&self, n: usize) -> ",
            Phrase::PlainMut => b"(&mut self) -> ",
            Phrase::IndexedMut => b"(&mut self, n: usize) -> ",
            Phrase::Reference => b"&",
            Phrase::OpensBody => b" { ",
            Phrase::ClosesBody => b" }",
            Phrase::FieldOfSelf => b"&self.",
            Phrase::ClosesMember => b"[n] }",
            Phrase::OpensAt => b"at(self, ",
            Phrase::OpensAtIndex => b"at_index(self, ",
            Phrase::ThenNext => b", ",
            Phrase::ClosesAtIndex => b", n) }",
            Phrase::ClosesCall => b") }",
            Phrase::SpecStruct => b"pub struct Spec;",
            Phrase::OpensSpec => b"impl RegisterSpec for Spec { type Ux = ",
            Phrase::ClosesSpec => b"; }",
            Phrase::ReadableImpl => b"impl Readable for Spec {}",
            Phrase::WritableImpl => b"impl Writable for Spec { ",
            Phrase::ZeroToModify => b"const ZERO_TO_MODIFY: ",
            Phrase::OneToModify => b"const ONE_TO_MODIFY: ",
            Phrase::ResettableImpl => b"impl Resettable for Spec { ",
            Phrase::ResetValue => b"const RESET_VALUE: ",
            Phrase::Equals => b" = ",
            Phrase::PubStruct => b"pub struct ",
            Phrase::ClosesMarker => b";",
            Phrase::ReadersImpl => b"impl R<Spec> {",
            Phrase::WritersImpl => b"impl W<Spec> {",
            Phrase::OpensAtBit => b"at_bit(",
            Phrase::ClosesAtBit => b", n)",
            Phrase::OfBitReader => b"BitReader<",
            Phrase::NewBitReader => b"> { BitReader::new(((self.bits >> ",
            Phrase::ThenMask => b") & ",
            Phrase::ClosesBitReader => b") != 0x0) }",
            Phrase::OfFieldReader => b"FieldReader<",
            Phrase::NewFieldReader => b"> { FieldReader::new(((self.bits >> ",
            Phrase::ThenCast => b") as ",
            Phrase::OfFieldWriter => b"FieldWriter<'_, Spec, ",
            Phrase::NewFieldWriter => b"> { FieldWriter::new(self, ",
            Phrase::OfSpec => b"<'_, Spec, ",
            Phrase::ThenBody => b"> { ",
            Phrase::NewOnSelf => b"::new(self, ",
            Phrase::TestsBit => b"(&self) -> bool { self.bit() == ",
            Phrase::TestsNumber => b"(&self) -> bool { self.bits() == ",
            Phrase::WritesBit => b"(self) -> &'a mut W<Spec> { self.bit(",
            Phrase::WritesNumber => b"(self) -> &'a mut W<Spec> { self.bits(",
            Phrase::BitReaderImpl => b"impl BitReader<",
            Phrase::FieldReaderImpl => b"impl FieldReader<",
            Phrase::WriterImpl => b"impl<'a> ",
            Phrase::FieldWriterImpl => b"impl<'a> FieldWriter<'a, Spec, ",
            Phrase::OfSpecInImpl => b"<'a, Spec, ",
            Phrase::OpensCalls => b"> {",
        }
    }
}

/// `self` and, where a call takes one, the index.
pub fn receiver(is_indexed: bool) -> Phrase
    ensures { result ≡ receiver is_indexed }
{
    if is_indexed {
        Phrase::Indexed
    } else {
        Phrase::Plain
    }
}

/// The same of a call that changes what it is called on.
pub fn receiver_mut(is_indexed: bool) -> Phrase
    ensures { result ≡ receiver_mut is_indexed }
{
    if is_indexed {
        Phrase::IndexedMut
    } else {
        Phrase::PlainMut
    }
}
