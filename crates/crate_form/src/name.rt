ghost use Rattle.std.specs.Prelude.{◌≡◌, ◌≢◌, [], IfOk};
ghost use Rattle.crate_form.specs.Registers.{written_marker};
ghost use Rattle.rust_names.specs.Identifiers.{IsIdentifier};
ghost use Rattle.svd_values.specs.AccessorNames.{accessor_name, digit_guard, slot_name_of, without_array_mark};

use frag_tree::Identifier;
use pac_base::{Name, NoMemory};
use std::alloc::Global;
use svd_values::{accessor, slot_name};

/// The accessor of an element of this written name.
pub(crate) fn accessor_of(alloc: Global, name: &Name) -> Result<Identifier, NoMemory>
    requires { name.now ≢ [] → IsIdentifier (accessor_name name.now) }
    ensures is { IfOk result (λ made. made ≡ accessor_name name.now) }
    ensures form { IfOk result IsIdentifier }
{
    some_name(name);
    let made = accessor(alloc, name)?;
    Identifier::known(alloc, made.bytes())
}

/// The slot of a peripheral of this written name.
pub(crate) fn slot_of(alloc: Global, name: &Name) -> Result<Identifier, NoMemory>
    requires { name.now ≢ [] → IsIdentifier (slot_name_of name.now) }
    ensures is { IfOk result (λ made. made ≡ slot_name_of name.now) }
    ensures form { IfOk result IsIdentifier }
{
    some_name(name);
    let made = slot_name(alloc, name)?;
    Identifier::known(alloc, made.bytes())
}

/// The marker of a field of this written name.
pub(crate) fn marker_of(alloc: Global, name: &Name) -> Result<Identifier, NoMemory>
    requires { name.now ≢ [] → IsIdentifier (written_marker name.now) }
    ensures { IfOk result (λ made. made ≡ written_marker name.now) }
{
    some_name(name);
    let plain = without_array_mark(name.bytes());
    let mut bytes = Vec::from_slice(alloc, digit_guard(plain))?;
    bytes.extend_from_slice(plain)?;
    bytes.extend_from_slice(b"_F")?;
    Identifier::known(alloc, bytes.as_slice())
}

// A name has a byte. It does nothing, and is here for the proof alone.
pub(crate) fn some_name(name: &Name)
    ensures { name.now ≢ [] }
{
    let _bytes = name.bytes();
}

fn digit_guard(name: &[u8]) -> &'static [u8]
    ensures { result.now ≡ digit_guard name.now }
{
    match name {
        [first, ..] if first.is_ascii_digit() => b"_",
        _ => b"",
    }
}

fn without_array_mark(name: &[u8]) -> &[u8]
    ensures { result.now ≡ without_array_mark name.now }
{
    name.strip_suffix(b"[%s]").unwrap_or(name)
}
