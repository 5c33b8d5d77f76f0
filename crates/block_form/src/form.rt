ghost use Rattle.std.specs.Prelude.{◌≡◌, ◌<◌, ◌≤◌, ◌^◌, IfOk};
ghost use Rattle.std.specs.Int.{next_multiple_of};
ghost use Rattle.std.specs.List.{AllByRecursion};
ghost use Rattle.block_form.specs.Children.{IsAlignment, IsSound};
ghost use Rattle.block_form.specs.Forms.{form_of};
ghost use Rattle.block_form.specs.Numbers.{IsNumbered, IsValid};

use crate::accessor::access;
use crate::child::Child;
use crate::placing::placed;
use frag_tree::{Access, StructField};
use pac_base::{NoMemory, Seq};
use std::alloc::Global;

/// The struct and the accessors of a block, and what it takes in memory.
#[derive(Drop)]
pub struct Form {
    /// The fields of the struct, with the gaps between them.
    pub fields: Seq<StructField>,
    /// An accessor for each child, in their order.
    pub accessors: Seq<Access>,
    /// How many bytes the struct takes. At most 2^64.
    pub size: u128,
    /// Its alignment in bytes.
    pub align: u64,
}

/// The form of the block with these children. They are gone through by offset, those of one offset in their
/// order, and each becomes a field of the struct where it can; every other is reached by its offset.
pub fn block_form(alloc: Global, children: &[Child]) -> Result<Form, NoMemory>
    requires sound { AllByRecursion IsSound children.now }
    ensures form { IfOk result (λ form. form ≡ form_of children.now) }
    ensures valid { IfOk result IsValid }
{
    let placing = placed(alloc, children)?;
    let mut accessors = Seq::new(alloc);
    for child in children {
        numbers(child);
        accessors.push(access(placing.has(child), child)?)?;
    }
    Ok(Form {
        fields: placing.fields,
        accessors,
        size: rounded(placing.end, placing.align),
        align: placing.align,
    })
}

// What its types say of a child. It does nothing, and is here for the proof alone.
fn numbers(child: &Child)
    ensures { IsNumbered child.now }
{
    let _name = child.name.bytes();
    number(child.offset);
    if let Some(array) = child.array {
        number(array.count);
        number(array.stride);
    }
}

// What its type says of a number.
fn number(number: u64)
    ensures { number < 2 ^ 64 }
{
    let _ = number;
}

/// The next multiple of the alignment.
fn rounded(end: u128, align: u64) -> u128
    requires within { end ≤ 2 ^ 64 }
    requires aligned { IsAlignment align }
    ensures { result ≡ next_multiple_of end align }
{
    let align = u128::from(align);
    end + (align - end % align) % align
}
