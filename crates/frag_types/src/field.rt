ghost use Rattle.std.specs.Prelude.{◌≡◌, option_map};
ghost use Rattle.std.specs.List.{list_any};
ghost use Rattle.std.specs.Str.{bytes_eq};
ghost use Rattle.frag_sem.specs.PreludeCalls.{bit_tests, bit_writes};
ghost use Rattle.frag_sem.specs.Spots.{spot_count};
ghost use Rattle.frag_types.specs.Fields.{given, given_as, read_count, read_type, taken, taken_as, tests_bit, write_count, write_type, writes_bit};
ghost use Rattle.frag_types.specs.Telling.{told, type_seen};

use crate::place::index_fits;
use crate::proxy::{on_reader, on_writer};
use crate::value_type::ValueType;
use frag_index::Unit;
use frag_script::ScriptTyping;
use frag_tree::{BitKind, Call, ReadForm, Reader, Spot, WriteForm, Writer};

fn is_text(name: &[u8], text: &[u8]) -> bool
    ensures { result ≡ bytes_eq name.now text.now }
{
    name == text
}

/// Whether `BitReader` has a call of the name that compares the bit.
fn is_bit_test(name: &[u8]) -> bool
    ensures { result ≡ list_any (λ call. bytes_eq name.now call.name) bit_tests }
{
    is_text(name, b"bit_is_set") || is_text(name, b"bit_is_clear")
}

/// Whether a bit's writer has a call of the name that says what it writes.
fn is_bit_write(kind: BitKind, name: &[u8]) -> bool
    ensures { result ≡ list_any (λ call. bytes_eq name.now call.name) (bit_writes kind) }
{
    match kind {
        BitKind::Plain => is_text(name, b"set_bit") || is_text(name, b"clear_bit"),
        BitKind::OneToSet => is_text(name, b"set_bit"),
        BitKind::ZeroToClear => is_text(name, b"clear_bit"),
        BitKind::OneToClear => is_text(name, b"clear_bit_by_one"),
        BitKind::ZeroToSet => is_text(name, b"set_bit_by_zero"),
        BitKind::OneToToggle => is_text(name, b"toggle_bit"),
        BitKind::ZeroToToggle => is_text(name, b"toggle_bit"),
    }
}

/// How many members a spot has; none where it takes no index.
fn spot_count(spot: &Spot) -> Option<u64>
    ensures { result ≡ spot_count spot.now }
{
    match spot {
        Spot::Fixed(_) => None,
        Spot::Indexed { count, .. } => Some(*count),
    }
}

fn read_count(form: &ReadForm) -> Option<u64>
    ensures { result ≡ read_count form.now }
{
    match form {
        ReadForm::Bit { spot, .. } => spot_count(spot),
        ReadForm::Field { spot, .. } => spot_count(spot),
    }
}

fn write_count(form: &WriteForm) -> Option<u64>
    ensures { result ≡ write_count form.now }
{
    match form {
        WriteForm::Bit { spot, .. } => spot_count(spot),
        WriteForm::Field { spot, .. } => spot_count(spot),
    }
}

/// Whether the reader of a bit has a call of the name.
fn tests_bit(reader: &Reader, unit: &Unit<'_>, method: &[u8]) -> bool
    ensures { result ≡ tests_bit reader.now unit.now.values method.now }
{
    is_text(method, b"bit") || (is_bit_test(method) || on_reader(reader, unit, method))
}

/// Whether the writer of a bit has a call of the name that says what it writes.
fn writes_bit(kind: BitKind, writer: &Writer, unit: &Unit<'_>, method: &[u8]) -> bool
    ensures { result ≡ writes_bit kind writer.now unit.now.values method.now }
{
    is_bit_write(kind, method) || on_writer(writer, unit, method)
}

fn given_as(is_whole: bool, whole: ValueType, is_test: bool) -> Option<ValueType>
    ensures { option_map type_seen result ≡ given_as is_whole (type_seen whole) is_test }
{
    if is_whole {
        Some(whole)
    } else if is_test {
        Some(ValueType::Truth)
    } else {
        None
    }
}

fn taken_as(is_whole: bool, whole: ValueType, is_plain: bool) -> Option<Option<ValueType>>
    ensures { option_map (option_map type_seen) result ≡ taken_as is_whole (type_seen whole) is_plain }
{
    if is_whole {
        Some(Some(whole))
    } else if is_plain {
        Some(None)
    } else {
        None
    }
}

/// What a method of a reader gives.
#[tactic(auto, using(crate::proofs::Calls::given_bit, crate::proofs::Calls::given_field))]
fn given(unit: &Unit<'_>, reader: &Reader, method: &[u8]) -> Option<ValueType>
    ensures { option_map type_seen result ≡ given unit.now reader.now method.now }
{
    match &reader.form {
        ReadForm::Bit { .. } => {
            given_as(tests_bit(reader, unit, method), ValueType::Truth, false)
        }
        ReadForm::Field { width, .. } => given_as(
            is_text(method, b"bits"),
            ValueType::Number(*width),
            on_reader(reader, unit, method),
        ),
    }
}

/// What a method of a writer takes, if anything.
#[tactic(auto, using(crate::proofs::Calls::taken_bit, crate::proofs::Calls::taken_field))]
fn taken(unit: &Unit<'_>, writer: &Writer, method: &[u8]) -> Option<Option<ValueType>>
    ensures { option_map (option_map type_seen) result ≡ taken unit.now writer.now method.now }
{
    match &writer.form {
        WriteForm::Bit { kind, .. } => taken_as(
            is_text(method, b"bit"),
            ValueType::Truth,
            writes_bit(*kind, writer, unit, method),
        ),
        WriteForm::Field { width, .. } => taken_as(
            is_text(method, b"bits"),
            ValueType::Number(*width),
            on_writer(writer, unit, method),
        ),
    }
}

/// What a method of a field gives that can be read.
#[tactic(auto, unfolding(crate::specs::Fields::read_type))]
pub(crate) fn read_type(
    unit: &Unit<'_>,
    field: &Call,
    method: &[u8],
) -> Result<ValueType, ScriptTyping>
    ensures { told type_seen result ≡ read_type unit.now field.now method.now }
{
    match unit.reader(field.name.bytes()) {
        Some(reader) => {
            match index_fits(read_count(&reader.form), field.index) {
                Ok(()) => match given(unit, reader, method) {
                    Some(found) => Ok(found),
                    None => Err(ScriptTyping::NoSuchCall),
                },
                Err(kind) => Err(kind),
            }
        }
        None => Err(ScriptTyping::NoSuchCall),
    }
}

/// What a method of a field takes that can be written.
#[tactic(auto, unfolding(crate::specs::Fields::write_type))]
pub(crate) fn write_type(
    unit: &Unit<'_>,
    field: &Call,
    method: &[u8],
) -> Result<Option<ValueType>, ScriptTyping>
    ensures { told (option_map type_seen) result ≡ write_type unit.now field.now method.now }
{
    match unit.writer(field.name.bytes()) {
        Some(writer) => {
            match index_fits(write_count(&writer.form), field.index) {
                Ok(()) => match taken(unit, writer, method) {
                    Some(found) => Ok(found),
                    None => Err(ScriptTyping::NoSuchCall),
                },
                Err(kind) => Err(kind),
            }
        }
        None => Err(ScriptTyping::NoSuchCall),
    }
}
