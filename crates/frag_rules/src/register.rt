ghost use Rattle.std.specs.Prelude.{◌≡◌, ◌&&◌, ◌^◌, ◌+◌, ◌-◌, IfOk, is_none, is_some, map, min, nat_lt, nat_le, option_map};
ghost use Rattle.std.specs.List.{list_all};
ghost use Rattle.pac_base.specs.Widths.{bits_of};
ghost use Rattle.frag_sem.specs.CrateTyping.{constants_of, is_free, read_fits, register_constants_fit, write_fits};
ghost use Rattle.frag_sem.specs.PreludeWords.{same_truth};
ghost use Rattle.frag_sem.specs.ProxyTypes.{readers_of, same_width, value_names, writers_of};
ghost use Rattle.frag_sem.specs.Spots.{last_spot, read_spot, spot_has_members, write_spot};
ghost use Rattle.frag_rules.specs.Bodies.{misfit};
ghost use Rattle.frag_rules.specs.Naming.{named_in};
ghost use Rattle.frag_rules.specs.Rules.{register_test};

use crate::named::{Named, by_name, first_again};
use crate::place::{behind, earlier};
use crate::prelude::is_free;
use crate::rule::RegisterRule;
use crate::values::{value_calls, value_literals, value_names, value_types};
use frag_tree::{
    Constant, Identifier, ReadForm, Reader, RegisterModule, Spot, Version, WriteForm, Writer,
};
use pac_base::{NoMemory, Width};
use std::alloc::Global;

/// The calls that read fields.
pub fn readers_of(unit: &RegisterModule) -> &[Reader]
    ensures { result.now ≡ readers_of unit.now }
{
    match &unit.readers {
        Some(readers) => readers.as_slice(),
        None => &[],
    }
}

/// The calls that write fields.
pub fn writers_of(unit: &RegisterModule) -> &[Writer]
    ensures { result.now ≡ writers_of unit.now }
{
    match &unit.writers {
        Some(writers) => writers.as_slice(),
        None => &[],
    }
}

/// A marker of a register module as an item of it.
fn marker_item(marker: Option<usize>) -> Option<usize>
    ensures { is_none result ≡ is_none marker }
{
    behind(1, marker)
}

/// A reader of a register module as an item of it.
fn reader_item(unit: &RegisterModule, reader: Option<usize>) -> Option<usize>
    ensures { is_none result ≡ is_none reader }
{
    behind(unit.markers.len().saturating_add(1), reader)
}

/// A writer of a register module as an item of it.
fn writer_item(unit: &RegisterModule, writer: Option<usize>) -> Option<usize>
    ensures { is_none result ≡ is_none writer }
{
    let readers = readers_of(unit).len();
    behind(
        unit.markers.len().saturating_add(readers).saturating_add(1),
        writer,
    )
}

/// How many items of a register module stand before its values.
pub(crate) fn items_before_values(unit: &RegisterModule) -> usize {
    unit.markers
        .len()
        .saturating_add(readers_of(unit).len())
        .saturating_add(writers_of(unit).len())
        .saturating_add(1)
}

/// The register module itself, where a rule on it as a whole doesn't hold.
fn itself(holds: bool) -> Option<usize>
    ensures { is_none result ≡ holds }
{
    if holds { None } else { Some(0) }
}

/// Whether both widths are the same.
fn same_width(one: Width, other: Width) -> bool
    ensures { result ≡ same_width one other }
{
    one.bits() == other.bits()
}

/// Whether a number fits so many bits.
pub(crate) fn has_bits(width: Width, value: u64) -> bool
    ensures { result ≡ nat_lt value (2 ^ bits_of width) }
{
    match width {
        Width::W8 => value < 0x100,
        Width::W16 => value < 0x1_0000,
        Width::W32 => value < 0x1_0000_0000,
        Width::W64 => true,
    }
}

fn spot_has_members(spot: &Spot) -> bool
    ensures { result ≡ spot_has_members spot.now }
{
    match spot {
        Spot::Fixed(_) => true,
        Spot::Indexed { count, .. } => *count >= 1,
    }
}

fn read_spot(form: &ReadForm) -> &Spot
    ensures { result.now ≡ read_spot form.now }
{
    match form {
        ReadForm::Bit { spot, .. } => spot,
        ReadForm::Field { spot, .. } => spot,
    }
}

fn write_spot(form: &WriteForm) -> &Spot
    ensures { result.now ≡ write_spot form.now }
{
    match form {
        WriteForm::Bit { spot, .. } => spot,
        WriteForm::Field { spot, .. } => spot,
    }
}

fn reader_without_members(readers: &[Reader]) -> Option<usize>
    ensures { result ≡ misfit (λ reader. spot_has_members (read_spot reader.form)) readers.now }
{
    readers
        .iter()
        .position(|reader| !spot_has_members(read_spot(&reader.form)))
}

fn writer_without_members(writers: &[Writer]) -> Option<usize>
    ensures { result ≡ misfit (λ writer. spot_has_members (write_spot writer.form)) writers.now }
{
    writers
        .iter()
        .position(|writer| !spot_has_members(write_spot(&writer.form)))
}

/// The first reader or writer whose count is 0.
fn counts(unit: &RegisterModule) -> Option<usize>
    ensures { is_none result ≡ register_test RegisterRule.Counts Version.One unit.now }
{
    earlier(
        reader_item(unit, reader_without_members(readers_of(unit))),
        writer_item(unit, writer_without_members(writers_of(unit))),
    )
}

fn is_of_width(constant: &Constant, word: Width) -> bool
    ensures { result ≡ same_width constant.now.width word }
{
    same_width(constant.width, word)
}

fn is_in_width(constant: &Constant, word: Width) -> bool
    ensures { result ≡ nat_lt constant.now.value (2 ^ bits_of word) }
{
    has_bits(word, constant.value)
}

/// Whether the constants of a register have its type.
fn constants_have_type(unit: &RegisterModule) -> bool
    ensures { result ≡ list_all (λ constant. same_width constant.width unit.now.word) (constants_of unit.now) }
{
    match &unit.writable {
        Some(masks) => {
            is_of_width(&masks.zero_to_modify, unit.word)
                && (is_of_width(&masks.one_to_modify, unit.word)
                    && is_of_width(&unit.reset, unit.word))
        }
        None => is_of_width(&unit.reset, unit.word),
    }
}

/// Whether the constants of a register fit its type.
fn constants_fit(unit: &RegisterModule) -> bool
    ensures { result ≡ register_constants_fit unit.now }
{
    match &unit.writable {
        Some(masks) => {
            is_in_width(&masks.zero_to_modify, unit.word)
                && (is_in_width(&masks.one_to_modify, unit.word)
                    && is_in_width(&unit.reset, unit.word))
        }
        None => is_in_width(&unit.reset, unit.word),
    }
}

fn reader_without_marker(markers: &Named<'_, &Identifier>, readers: &[Reader]) -> Option<usize>
    ensures { result ≡ misfit (λ reader. is_some (named_in markers.now reader.marker)) readers.now }
{
    readers
        .iter()
        .position(|reader| !markers.get(reader.marker.bytes()).is_some())
}

fn writer_without_marker(markers: &Named<'_, &Identifier>, writers: &[Writer]) -> Option<usize>
    ensures { result ≡ misfit (λ writer. is_some (named_in markers.now writer.marker)) writers.now }
{
    writers
        .iter()
        .position(|writer| !markers.get(writer.marker.bytes()).is_some())
}

/// The first reader whose marker isn't declared.
fn reader_markers(alloc: Global, unit: &RegisterModule) -> Result<Option<usize>, NoMemory>
    ensures { IfOk result (λ item. is_none item ≡ register_test RegisterRule.ReaderMarkers Version.One unit.now) }
{
    let markers = by_name(alloc, unit.markers.as_slice())?;
    Ok(reader_item(unit, reader_without_marker(&markers, readers_of(unit))))
}

/// The first writer whose marker isn't declared.
fn writer_markers(alloc: Global, unit: &RegisterModule) -> Result<Option<usize>, NoMemory>
    ensures { IfOk result (λ item. is_none item ≡ register_test RegisterRule.WriterMarkers Version.One unit.now) }
{
    let markers = by_name(alloc, unit.markers.as_slice())?;
    Ok(writer_item(unit, writer_without_marker(&markers, writers_of(unit))))
}

/// The lowest bit of the last member, or the greatest number where it lies behind that.
fn last_spot(spot: &Spot) -> u128
    ensures { result ≡ min (last_spot spot.now) (2 ^ 128 - 1) }
{
    match spot {
        Spot::Fixed(place) => u128::from(*place),
        Spot::Indexed {
            offset,
            step,
            count,
        } => {
            let steps = u128::from(*step).saturating_mul(u128::from(count.saturating_sub(1)));
            steps.saturating_add(u128::from(*offset))
        }
    }
}

/// Whether so many bits at a spot end within a register.
fn ends_within(spot: &Spot, bits: u64, word: Width) -> bool
    ensures { result ≡ nat_le (last_spot spot.now + bits) (bits_of word) }
{
    last_spot(spot).saturating_add(u128::from(bits)) <= u128::from(word.bits())
}

fn read_fits(word: Width, form: &ReadForm) -> bool
    ensures { result ≡ read_fits (bits_of word) form.now }
{
    match form {
        ReadForm::Bit { spot, mask } => {
            last_spot(spot) < u128::from(word.bits()) && has_bits(word, *mask)
        }
        ReadForm::Field { spot, mask, .. } => {
            last_spot(spot) < u128::from(word.bits()) && has_bits(word, *mask)
        }
    }
}

fn write_fits(word: Width, form: &WriteForm) -> bool
    ensures { result ≡ write_fits (bits_of word) form.now }
{
    match form {
        WriteForm::Bit { spot, .. } => ends_within(spot, 1, word),
        WriteForm::Field { width, bits, spot } => {
            ends_within(spot, *bits, word) && (1 <= *bits && *bits <= u64::from(width.bits()))
        }
    }
}

fn reader_out_of_place(word: Width, readers: &[Reader]) -> Option<usize>
    ensures { result ≡ misfit (λ reader. read_fits (bits_of word) reader.form) readers.now }
{
    readers
        .iter()
        .position(|reader| !read_fits(word, &reader.form))
}

fn writer_out_of_place(word: Width, writers: &[Writer]) -> Option<usize>
    ensures { result ≡ misfit (λ writer. write_fits (bits_of word) writer.form) writers.now }
{
    writers
        .iter()
        .position(|writer| !write_fits(word, &writer.form))
}

/// The first reader whose shift or mask passes the register.
fn reader_places(unit: &RegisterModule) -> Option<usize>
    ensures { is_none result ≡ register_test RegisterRule.ReaderPlaces Version.One unit.now }
{
    reader_item(unit, reader_out_of_place(unit.word, readers_of(unit)))
}

/// The first writer whose field passes the register, or has another width than its value type.
fn writer_places(unit: &RegisterModule) -> Option<usize>
    ensures { is_none result ≡ register_test RegisterRule.WriterPlaces Version.One unit.now }
{
    writer_item(unit, writer_out_of_place(unit.word, writers_of(unit)))
}

fn same_truth(one: bool, other: bool) -> bool
    ensures { result ≡ same_truth one other }
{
    if one { other } else { !other }
}

/// Whether the calls of the fields stand exactly with their directions.
#[tactic(auto, unfolding(crate::specs::Rules::register_test))]
fn directions_agree(unit: &RegisterModule) -> bool
    ensures { result ≡ register_test RegisterRule.Directions Version.One unit.now }
{
    same_truth(unit.readable, unit.readers.is_some())
        && same_truth(unit.writable.is_some(), unit.writers.is_some())
}

fn reader_of_prelude(version: Version, readers: &[Reader]) -> Option<usize>
    ensures { result ≡ misfit (λ reader. is_free version reader.name) readers.now }
{
    readers
        .iter()
        .position(|reader| !is_free(version, reader.name.bytes()))
}

fn writer_of_prelude(version: Version, writers: &[Writer]) -> Option<usize>
    ensures { result ≡ misfit (λ writer. is_free version writer.name) writers.now }
{
    writers
        .iter()
        .position(|writer| !is_free(version, writer.name.bytes()))
}

/// The first marker, reader, writer or call of a value whose name another has that stands before it.
fn distinct_names(alloc: Global, unit: &RegisterModule) -> Result<Option<usize>, NoMemory>
    ensures { IfOk result (λ item. is_none item ≡ register_test RegisterRule.DistinctNames Version.One unit.now) }
{
    let marker = first_again(alloc, unit.markers.as_slice())?;
    let reader = first_again(alloc, readers_of(unit))?;
    let writer = first_again(alloc, writers_of(unit))?;
    let call = value_calls(alloc, unit)?;
    let field = earlier(writer_item(unit, writer), call);
    Ok(earlier(
        marker_item(marker),
        earlier(reader_item(unit, reader), field),
    ))
}

/// The first reader, writer or call of a value that has a name of the prelude.
fn prelude_names(version: Version, unit: &RegisterModule) -> Option<usize>
    ensures { is_none result ≡ register_test RegisterRule.PreludeNames version unit.now }
{
    let reader = reader_of_prelude(version, readers_of(unit));
    let writer = writer_of_prelude(version, writers_of(unit));
    let field = earlier(writer_item(unit, writer), value_names(version, unit));
    earlier(reader_item(unit, reader), field)
}

/// The first item of a register module that breaks the rule, counted from the module itself.
#[tactic(auto, unfolding(crate::specs::Rules::register_test))]
pub(crate) fn broken_in_register(
    alloc: Global,
    rule: RegisterRule,
    version: Version,
    unit: &RegisterModule,
) -> Result<Option<usize>, NoMemory>
    ensures { IfOk result (λ item. is_none item ≡ register_test rule version unit.now) }
{
    match rule {
        RegisterRule::DistinctNames => distinct_names(alloc, unit),
        RegisterRule::Counts => Ok(counts(unit)),
        RegisterRule::ConstantTypes => Ok(itself(constants_have_type(unit))),
        RegisterRule::ConstantValues => Ok(itself(constants_fit(unit))),
        RegisterRule::ReaderMarkers => reader_markers(alloc, unit),
        RegisterRule::ReaderPlaces => Ok(reader_places(unit)),
        RegisterRule::WriterMarkers => writer_markers(alloc, unit),
        RegisterRule::WriterPlaces => Ok(writer_places(unit)),
        RegisterRule::ValueTypes => value_types(alloc, unit),
        RegisterRule::ValueLiterals => Ok(value_literals(unit)),
        RegisterRule::PreludeNames => Ok(prelude_names(version, unit)),
        RegisterRule::Directions => Ok(itself(directions_agree(unit))),
    }
}
