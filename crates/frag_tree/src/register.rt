ghost use Rattle.std.specs.Prelude.{◌≡◌};
ghost use Rattle.frag_tree.specs.Trees.{is_indexed};

use crate::identifier::Identifier;
use pac_base::{Seq, Width};

/// A register module: what `Reg<NAME::Spec>` offers.
#[derive(Drop)]
pub struct RegisterModule {
    /// The name of the module.
    pub name: Identifier,
    /// The width of an access: `type Ux = ..;`.
    pub word: Width,
    /// Whether `Readable` is there.
    pub readable: bool,
    /// `Writable`, where it is there.
    pub writable: Option<Writable>,
    /// `RESET_VALUE`.
    pub reset: Constant,
    /// The marker types of the fields: `pub struct NAME;`.
    pub markers: Seq<Identifier>,
    /// The calls of `impl R<Spec>`, where that is there.
    pub readers: Option<Seq<Reader>>,
    /// The calls of `impl W<Spec>`, where that is there.
    pub writers: Option<Seq<Writer>>,
    /// The blocks of calls that stand for values.
    pub values: Seq<Values>,
}

/// The two masks of `Writable`.
#[derive(Drop)]
pub struct Writable {
    /// `ZERO_TO_MODIFY`: the bits that a one leaves as they are.
    pub zero_to_modify: Constant,
    /// `ONE_TO_MODIFY`: the bits that a zero leaves as they are.
    pub one_to_modify: Constant,
}

/// The type and the value of a constant.
#[derive(Drop)]
pub struct Constant {
    /// Its type.
    pub width: Width,
    /// Its value.
    pub value: u64,
}

/// Where a field lies in the word, in bits.
#[derive(Drop)]
pub enum Spot {
    /// At this place.
    Fixed(u64),
    /// `at_bit(OFFSET, STEP, COUNT, n)`: so far, and as many steps as the index says.
    Indexed {
        /// How far the first member lies from the lowest bit.
        offset: u64,
        /// How far one member lies from the one before.
        step: u64,
        /// How many members there are.
        count: u64,
    },
}

impl Spot {
    /// Whether a call of the field takes an index.
    pub fn is_indexed(&self) -> bool
        ensures { result ≡ is_indexed self.now }
    {
        match self {
            Spot::Fixed(_) => false,
            Spot::Indexed { .. } => true,
        }
    }
}

/// A call that reads a field: `pub fn NAME(&self) -> READER { .. }`, with `, n: usize` behind `&self`
/// where the field lies at an indexed spot.
#[derive(Drop)]
pub struct Reader {
    /// The name of the call.
    pub name: Identifier,
    /// The marker of the field.
    pub marker: Identifier,
    /// How the field is taken out of the word.
    pub form: ReadForm,
}

/// How a field is taken out of a word.
#[derive(Drop)]
pub enum ReadForm {
    /// `BitReader`: whether the bits under the mask aren't 0.
    Bit {
        /// How far the word is shifted to the right.
        spot: Spot,
        /// Which bits are looked at then.
        mask: u64,
    },
    /// `FieldReader`: the bits under the mask, as a number of this width.
    Field {
        /// The width of the number.
        width: Width,
        /// How far the word is shifted to the right.
        spot: Spot,
        /// Which bits are taken then.
        mask: u64,
    },
}

/// A call that writes a field: `pub fn NAME(&mut self) -> WRITER { .. }`, with `, n: usize` behind
/// `&mut self` where the field lies at an indexed spot.
#[derive(Drop)]
pub struct Writer {
    /// The name of the call.
    pub name: Identifier,
    /// The marker of the field.
    pub marker: Identifier,
    /// How the field is put into the word.
    pub form: WriteForm,
}

/// How a field is put into a word.
#[derive(Drop)]
pub enum WriteForm {
    /// One of the writers of a bit.
    Bit {
        /// Which writer.
        kind: BitKind,
        /// The place of the bit.
        spot: Spot,
    },
    /// `FieldWriter`: a number of this width goes into so many bits.
    Field {
        /// The width of the number.
        width: Width,
        /// How many bits the field has.
        bits: u64,
        /// The place of the lowest bit.
        spot: Spot,
    },
}

/// The writers of a bit, by what a written bit does (CMSIS-SVD 1.3, `modifiedWriteValues`).
#[derive(Clone, Copy)]
pub enum BitKind {
    /// `BitWriter`: the bit becomes what is written, or is set or cleared by any write.
    Plain,
    /// `BitWriter1S`: a one sets it.
    OneToSet,
    /// `BitWriter0C`: a zero clears it.
    ZeroToClear,
    /// `BitWriter1C`: a one clears it.
    OneToClear,
    /// `BitWriter0S`: a zero sets it.
    ZeroToSet,
    /// `BitWriter1T`: a one toggles it.
    OneToToggle,
    /// `BitWriter0T`: a zero toggles it.
    ZeroToToggle,
}

/// A block of calls that stand for values of a field.
#[derive(Drop)]
pub enum Values {
    /// Calls that test a bit: `impl BitReader<MARKER>`.
    BitReading {
        /// The marker of the field.
        marker: Identifier,
        /// The calls, in order.
        calls: Seq<TruthCall>,
    },
    /// Calls that test a number: `impl FieldReader<MARKER, WIDTH>`.
    FieldReading {
        /// The marker of the field.
        marker: Identifier,
        /// The width of the number.
        width: Width,
        /// The calls, in order.
        calls: Seq<NumberCall>,
    },
    /// Calls that write a bit: `impl<'a> KIND<'a, Spec, MARKER>`.
    BitWriting {
        /// Which writer.
        kind: BitKind,
        /// The marker of the field.
        marker: Identifier,
        /// The calls, in order.
        calls: Seq<TruthCall>,
    },
    /// Calls that write a number: `impl<'a> FieldWriter<'a, Spec, MARKER, WIDTH, BITS>`.
    FieldWriting {
        /// The marker of the field.
        marker: Identifier,
        /// The width of the number.
        width: Width,
        /// How many bits the field has.
        bits: u64,
        /// The calls, in order.
        calls: Seq<NumberCall>,
    },
}

/// A call that stands for a truth.
#[derive(Drop)]
pub struct TruthCall {
    /// The name of the call.
    pub name: Identifier,
    /// What it stands for.
    pub value: bool,
}

/// A call that stands for a number.
#[derive(Drop)]
pub struct NumberCall {
    /// The name of the call.
    pub name: Identifier,
    /// What it stands for.
    pub value: u64,
}
