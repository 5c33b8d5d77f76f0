ghost use Rattle.std.specs.Prelude.{◌≡◌, ◌+◌, ◌*◌, ◌≤◌, [], None, ◌&&◌, ◌||◌, nat_lt, option_map, unwrap_or, IfOk, OnOk};
ghost use Rattle.std.specs.List.{AllByRecursion};
ghost use Rattle.pac_base.specs.Widths.{bits_of};
ghost use Rattle.overlap_sweep.specs.Fields.{field_meets, share_one, shared_fields, told_field, told_fields};
ghost use Rattle.overlap_sweep.specs.Kept.{declared_spot, declared_spots, kept_all, kept_pair, kept_too};
ghost use Rattle.overlap_sweep.specs.Search.{first_against};
ghost use Rattle.reg_table.specs.Fields.{FieldFits};
ghost use Rattle.reg_table.specs.Walk.{index_at};
ghost use Rattle.svd_model.specs.Properties.{register_properties, size_at};
ghost use Rattle.svd_model.specs.Checking.{width_of};
ghost use Rattle.svd_model.specs.Steps.{same_step};
ghost use Rattle.svd_model.specs.Trees.{register_tree};
ghost use Rattle.svd_rows.specs.Elements.{IsDistinct};
ghost use Rattle.svd_rows.specs.Rows.{rows};

use crate::walk::index_at;
use pac_base::{Name, NoMemory, Seq, Step};
use std::alloc::Global;
use svd_model::{Field, FieldFacts, Props, Register, Sibling};

/// A member of a field: its bits, and its directions.
#[derive(Drop)]
pub struct FieldSpot {
    /// The written name of the field.
    pub name: Name,
    /// The index of the member, where the field is an array.
    pub index: Option<u64>,
    /// The number of its lowest bit.
    pub start: u128,
    /// How many bits it has.
    pub bits: u128,
    /// Whether it can be read.
    pub readable: bool,
    /// Whether it can be written.
    pub writable: bool,
}

/// Two members of fields of one register.
#[derive(Debug, Drop)]
pub struct FieldPair {
    /// The one that stands first.
    pub first: Step,
    /// The other.
    pub second: Step,
}

/// Whether the number lies below the end of so many from this one on.
fn is_below_end(number: u128, start: u128, count: u128) -> bool
    ensures { result ≡ nat_lt number (start + count) }
{
    number < start || number - start < count
}

impl FieldSpot {
    /// Whether both share a bit, and are both readable or both writable.
    #[tactic(auto, unfolding(crate::specs::Fields::field_meets))]
    fn meets(&self, other: &FieldSpot) -> bool
        ensures { result ≡ field_meets self.now other.now }
    {
        (is_below_end(self.start, other.start, other.bits)
            && is_below_end(other.start, self.start, self.bits))
            && ((self.readable && other.readable) || (self.writable && other.writable))
    }

    /// Its step, as it is told.
    fn told(&self, alloc: Global) -> Result<Step, NoMemory>
        ensures { IfOk result (λ step. step ≡ told_field self.now) }
    {
        Ok(Step {
            name: self.name.copy(alloc)?,
            index: self.index,
        })
    }
}

/// The number of the lowest bit of a member of a field: its offset, and its index times the step behind that.
fn bit_start(offset: u128, index: Option<u64>, step: Option<u64>) -> u128
    requires { offset ≤ 64 }
    ensures { result ≡ offset + unwrap_or index 0 * unwrap_or step 0 }
{
    offset + index.unwrap_or(0) as u128 * step.unwrap_or(0) as u128
}

/// A member of a field.
fn field_spot(
    alloc: Global,
    key: &Sibling,
    field: &Field,
    facts: &FieldFacts,
    index: Option<u64>,
) -> Result<FieldSpot, NoMemory>
    requires { unwrap_or field.now.place.offset 0 ≤ 64 }
    ensures { IfOk result (λ spot. spot ≡ declared_spot facts.now.readable facts.now.writable key.now field.now index) }
{
    Ok(FieldSpot {
        name: key.name.copy(alloc)?,
        index,
        start: bit_start(field.place.offset.unwrap_or(0), index, field.dim.step),
        bits: field.place.width.unwrap_or(1),
        readable: facts.readable,
        writable: facts.writable,
    })
}

/// The first of those that are kept which the member meets, with it.
fn met(alloc: Global, kept: &[FieldSpot], spot: &FieldSpot) -> Result<Option<FieldPair>, NoMemory>
    ensures { IfOk result (λ found. found ≡ option_map (λ first. told_fields (first, spot.now)) (first_against field_meets spot.now kept.now)) }
{
    for first in kept {
        if first.meets(spot) {
            return Ok(Some(FieldPair {
                first: first.told(alloc)?,
                second: spot.told(alloc)?,
            }));
        }
    }
    Ok(None)
}

/// Keeps the member, unless it has no direction: such a one meets none.
fn keep(kept: &mut Seq<FieldSpot>, spot: FieldSpot) -> Result<(), NoMemory>
    ensures { OnOk result (kept.new ≡ kept_too kept.old spot) }
{
    if spot.readable || spot.writable {
        kept.push(spot)?;
    }
    Ok(())
}

/// The first of the members of a field that meets one that is kept, with the first of these. Where none does, all are
/// kept.
fn first_in_field(
    alloc: Global,
    key: &Sibling,
    field: &Field,
    facts: &FieldFacts,
    kept: &mut Seq<FieldSpot>,
) -> Result<Option<FieldPair>, NoMemory>
    requires { unwrap_or field.now.place.offset 0 ≤ 64 }
    ensures found { IfOk result (λ found. found ≡ option_map told_fields (kept_pair kept.old (declared_spots facts.now.readable facts.now.writable key.now field.now))) }
    ensures kept { IfOk result (λ found. found ≡ None → kept.new ≡ kept_all kept.old (declared_spots facts.now.readable facts.now.writable key.now field.now)) }
{
    for number in 0..field.dim.count.unwrap_or(1) {
        let spot = field_spot(alloc, key, field, facts, index_at(field.dim.count, number))?;
        let found = met(alloc, kept.as_slice(), &spot)?;
        if let Some(pair) = found {
            return Ok(Some(pair));
        }
        keep(kept, spot)?;
    }
    Ok(None)
}

/// The first pair of members of fields of a register, inside of which properties `outer` hold, that share a bit and are
/// both readable or both writable: by the second and then by the first in document order.
pub(crate) fn shared_fields(
    alloc: Global,
    register: &Register,
    outer: &Props,
) -> Result<Option<FieldPair>, NoMemory>
    requires distinct { IsDistinct same_step (register_tree register.now).below }
    requires fields { AllByRecursion (FieldFits (bits_of (width_of (size_at (register_properties register.now outer.now))))) register.now.fields.entries }
    ensures { IfOk result (λ found. found ≡ shared_fields (register_properties register.now outer.now) (rows (register_tree register.now))) }
{
    let facts = register.facts(outer);
    let mut kept = Seq::new(alloc);
    for (key, field) in &register.fields {
        let own = field.facts(register, &facts);
        let found = first_in_field(alloc, key, field, &own, &mut kept)?;
        if let Some(pair) = found {
            return Ok(Some(pair));
        }
    }
    Ok(None)
}
