ghost use Rattle.std.specs.Prelude.{◌≡◌, ◌+◌, ◌≤◌, ◌<◌, ◌^◌, OnOk, IfOk};
ghost use Rattle.std.specs.List.{AllByRecursion};
ghost use Rattle.block_form.specs.Children.{IsSound, child_end};
ghost use Rattle.block_form.specs.Fields.{becomes_field};
ghost use Rattle.block_form.specs.Forms.{taken_of};
ghost use Rattle.block_form.specs.Placings.{HasGap, has_name, IsWhole, Puts, Takes};

use crate::child::Child;
use crate::field::{becomes_field, child_end, child_field, gap_field};
use crate::order::by_offset;
use frag_tree::StructField;
use indexmap::IndexSet;
use pac_base::{NoMemory, Seq};
use std::alloc::Global;

/// A struct of which some fields stand.
#[derive(Drop)]
pub(crate) struct Placing<'a> {
    /// Where the last field ends. At most 2^64.
    pub end: u128,
    /// The greatest alignment of the fields, 1 where there is none.
    pub align: u64,
    /// How many of them are gaps.
    pub gaps: u64,
    /// The fields.
    pub fields: Seq<StructField>,
    /// The names of the children among them.
    pub names: IndexSet<&'a [u8]>,
}

impl<'a> Placing<'a> {
    /// Puts a gap before a child where there are bytes between.
    fn put_gap(&mut self, alloc: Global, child: &Child) -> Result<(), NoMemory>
        requires few { self.old.gaps + 1 < 2 ^ 64 }
        ensures { OnOk result (HasGap self.old self.new child.now) }
    {
        let offset = u128::from(child.offset);
        if self.end < offset {
            let bytes = (offset - self.end) as u64;
            self.fields.push(gap_field(alloc, self.gaps, bytes)?)?;
            self.gaps += 1;
        }
        Ok(())
    }

    /// Puts a child behind the last field.
    fn put(&mut self, alloc: Global, child: &'a Child) -> Result<(), NoMemory>
        requires within { child_end child.now ≤ 2 ^ 64 }
        requires few { self.old.gaps + 1 < 2 ^ 64 }
        ensures { OnOk result (Puts self.old self.new child.now) }
    {
        self.put_gap(alloc, child)?;
        self.fields.push(child_field(child)?)?;
        self.end = child_end(child);
        self.align = child.align.max(self.align);
        self.names.insert(child.name.bytes())?;
        Ok(())
    }

    /// Takes one child more, the next by offset.
    fn take(&mut self, alloc: Global, child: &'a Child) -> Result<(), NoMemory>
        requires sound { IsSound child.now }
        requires few { self.old.gaps + 1 < 2 ^ 64 }
        ensures { OnOk result (Takes (becomes_field self.old.end child.now) self.old self.new child.now) }
    {
        if becomes_field(self.end, child) {
            self.put(alloc, child)?;
        }
        Ok(())
    }

    /// Whether a child is among the fields.
    pub fn has(&self, child: &Child) -> bool
        ensures { result ≡ has_name child.now.name self.now }
    {
        let name = child.name.bytes();
        self.names.contains(&name)
    }
}

/// The struct of the block.
pub(crate) fn placed<'a>(alloc: Global, children: &'a [Child]) -> Result<Placing<'a>, NoMemory>
    requires sound { AllByRecursion IsSound children.now }
    ensures { IfOk result (λ placing. IsWhole placing (taken_of children.now)) }
{
    let order = by_offset(alloc, children)?;
    let mut placing = Placing {
        end: 0,
        align: 1,
        gaps: 0,
        fields: Seq::new(alloc),
        names: IndexSet::new(alloc),
    };
    for child in &order {
        placing.take(alloc, *child)?;
    }
    Ok(placing)
}
