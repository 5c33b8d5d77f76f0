ghost use Rattle.std.specs.Prelude.{◌≡◌, IfOk};
ghost use Rattle.patch_changes.specs.Listed.{key_comes_to, new_key};
ghost use Rattle.patch_growth.specs.Grown.{IsThere};
ghost use Rattle.patch_ready.specs.Ready.{IsNewName};
ghost use Rattle.patch_sem.specs.Modifying.{new_name};

use glob_select::Pattern;
use pac_base::{Name, NameFault, NoMemory, Text};
use patch_sem::PatchFault;
use patch_settings::value_at;
use std::alloc::Global;
use svd_model::Sibling;

/// The new name among the keys.
pub(crate) fn new_name(alloc: Global, keys: &[(Text, Text)]) -> Result<Option<Name>, NoMemory>
    requires { IsNewName keys.now }
    ensures { IfOk result (λ name. name ≡ new_name keys.now) }
{
    let Some(text) = value_at(keys, b"name") else {
        return Ok(None);
    };
    match Name::new(alloc, text.as_str().as_bytes()) {
        Ok(name) => Ok(Some(name)),
        Err(NameFault::NotAName) => unreachable!(),
        Err(NameFault::Memory) => Err(NoMemory),
    }
}

/// Whether a child has the name then: the pattern matches it, or it has the name already.
pub(crate) fn comes_to(pattern: &Pattern, name: &Name, key: &Sibling) -> bool
    ensures { result ≡ key_comes_to pattern.now name.now key.now }
{
    pattern.matches(key.name.bytes()) || name.bytes() == key.name.bytes()
}

/// The key under the name, where the pattern matches it.
pub(crate) fn new_key(
    alloc: Global,
    pattern: &Pattern,
    name: &Name,
    key: Sibling,
) -> Result<Sibling, NoMemory>
    ensures { IfOk result (λ made. made ≡ new_key pattern.now name.now key) }
{
    if pattern.matches(key.name.bytes()) {
        return Ok(Sibling {
            name: name.copy(alloc)?,
            number: 0,
        });
    }
    Ok(key)
}

/// The fault that two children would have the name.
pub(crate) fn there(alloc: Global, line: u32, name: &Name) -> PatchFault
    ensures { IsThere line name.now result }
{
    match name.copy(alloc) {
        Ok(name) => PatchFault::AddExists { line, name },
        Err(NoMemory) => PatchFault::Memory,
    }
}
