ghost use Rattle.std.specs.Prelude.{◌≡◌, ◌++◌, Some, None, find, option_map, if◌then◌else◌};
ghost use Rattle.std.specs.Str.{bytes_eq};
ghost use Rattle.frag_sem.specs.PreludeCalls.{bit_tests, bit_writes};
ghost use Rattle.frag_sem.specs.ProxyTypes.{reader_type, truths_on, writer_type};

use frag_index::Unit;
use frag_tree::{BitKind, Reader, Writer};

pub(crate) fn is_text(name: &[u8], text: &[u8]) -> bool
    ensures { result ≡ bytes_eq name.now text.now }
{
    name == text
}

/// What the call of a name of `BitReader` compares the bit with.
pub(crate) fn bit_test(unit: &Unit<'_>, reader: &Reader, name: &[u8]) -> Option<bool>
    ensures { result ≡ option_map (λ call. call.value) (find (λ call. bytes_eq name.now call.name) (bit_tests ++ truths_on (reader_type reader.now) unit.now.values)) }
{
    if is_text(name, b"bit_is_set") {
        return Some(true);
    }
    if is_text(name, b"bit_is_clear") {
        return Some(false);
    }
    unit.read_truth(reader, name).map(|call| call.value)
}

/// What the prelude's call of a name of a bit's writer writes, where it has such a call.
fn prelude_write(kind: BitKind, name: &[u8]) -> Option<bool>
    ensures { result ≡ option_map (λ call. call.value) (find (λ call. bytes_eq name.now call.name) (bit_writes kind)) }
{
    match kind {
        BitKind::Plain => {
            if is_text(name, b"set_bit") {
                Some(true)
            } else if is_text(name, b"clear_bit") {
                Some(false)
            } else {
                None
            }
        }
        BitKind::OneToSet => one_write(name, b"set_bit", true),
        BitKind::ZeroToClear => one_write(name, b"clear_bit", false),
        BitKind::OneToClear => one_write(name, b"clear_bit_by_one", true),
        BitKind::ZeroToSet => one_write(name, b"set_bit_by_zero", false),
        BitKind::OneToToggle => one_write(name, b"toggle_bit", true),
        BitKind::ZeroToToggle => one_write(name, b"toggle_bit", false),
    }
}

fn one_write(name: &[u8], text: &[u8], value: bool) -> Option<bool>
    ensures { result ≡ (if bytes_eq name.now text.now then Some value else None) }
{
    if is_text(name, text) {
        Some(value)
    } else {
        None
    }
}

/// What the call of a name of a bit's writer writes.
pub(crate) fn bit_write(
    kind: BitKind,
    unit: &Unit<'_>,
    writer: &Writer,
    name: &[u8],
) -> Option<bool>
    ensures { result ≡ option_map (λ call. call.value) (find (λ call. bytes_eq name.now call.name) (bit_writes kind ++ truths_on (writer_type writer.now) unit.now.values)) }
{
    match prelude_write(kind, name) {
        Some(value) => Some(value),
        None => unit.write_truth(writer, name).map(|call| call.value),
    }
}
