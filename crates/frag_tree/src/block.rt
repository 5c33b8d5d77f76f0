use crate::access::Access;
use crate::identifier::Identifier;
use crate::register::RegisterModule;
use pac_base::Seq;

/// A block module: a struct in the layout of C, an accessor for each of its elements, and the modules
/// of these elements.
#[derive(Drop)]
#[cycle(module)]
pub struct Block {
    /// The name of the module.
    pub name: Identifier,
    /// The fields of `RegisterBlock`, in order.
    pub fields: Seq<StructField>,
    /// The accessors of `RegisterBlock`.
    pub accessors: Seq<Access>,
    /// The modules inside.
    pub modules: Vec<Module>,
}

/// What may stand in a block module.
#[derive(Drop)]
#[cycle(module)]
pub enum Module {
    /// The module of a block.
    Block(Block),
    /// The module of a register.
    Register(RegisterModule),
}

/// A field of `RegisterBlock`: `NAME: TYPE,`.
#[derive(Drop)]
pub struct StructField {
    /// The name of the field.
    pub name: Identifier,
    /// What stands there.
    pub holds: FieldType,
}

/// The type of a struct's field.
#[derive(Drop)]
pub enum FieldType {
    /// One element.
    One(Element),
    /// An array of elements: `[ELEMENT; COUNT]`.
    Array {
        /// What each member is.
        element: Element,
        /// How many members there are.
        count: u64,
    },
    /// Bytes that belong to no element: `[u8; BYTES]`.
    Gap {
        /// How many bytes.
        bytes: u64,
    },
}

/// What an accessor leads to.
#[derive(Drop)]
pub enum Element {
    /// A register: `Reg<MODULE::Spec>`.
    Register {
        /// The module of the register.
        module: Identifier,
    },
    /// A block: `MODULE::RegisterBlock`.
    Block {
        /// The module of the block.
        module: Identifier,
    },
}
