ghost use Rattle.std.specs.Prelude.{◌≡◌, ◌++◌, IfOk, OnOk, map};
ghost use Rattle.yaml_block.specs.Nodes.{entry_under, node_tree};
ghost use Rattle.yaml_block.specs.Trees.{entries_of};
ghost use Rattle.patch_model.specs.Orders.{counts, is_used, keeps_name, kept_key, kept_keys};
ghost use Rattle.patch_form.specs.Words.{key_kind};

use crate::act::Keys;
use crate::leaf::trimmed_text;
use pac_base::NoMemory;
use patch_form::form::KeyKind;
use patch_form::place::{Entry, scalar};
use patch_form::table::key_kind;
use patch_form::word::Purpose;
use std::alloc::Global;

fn keeps_name(purpose: Purpose) -> bool
    ensures { result ≡ keeps_name purpose }
{
    match purpose {
        Purpose::Copying => false,
        Purpose::Modifying => true,
        Purpose::Adding => false,
    }
}

fn counts(purpose: Purpose, key: &[u8]) -> bool
    ensures { result ≡ counts purpose key.now }
{
    !(key == b"from".as_slice()) && (keeps_name(purpose) || !(key == b"name".as_slice()))
}

fn is_used(kind: Option<KeyKind>) -> bool
    ensures { result ≡ is_used kind }
{
    match kind {
        None => false,
        Some(known) => match known {
            KeyKind::Used(_) => true,
            KeyKind::Children => false,
            KeyKind::PassedOver => false,
        },
    }
}

/// Adds a key to the keys, where it is used.
pub fn keep_key(
    alloc: Global,
    keys: &mut Keys,
    counting: bool,
    kind: Option<KeyKind>,
    entry: &Entry,
) -> Result<(), NoMemory>
    ensures { OnOk result (keys.new ≡ keys.old ++ kept_key counting kind entry.now.1 (node_tree entry.now.2)) }
{
    if !counting {
        return Ok(());
    }
    if !is_used(kind) {
        return Ok(());
    }
    match scalar(&entry.2) {
        None => Ok(()),
        Some(text) => {
            let key = entry.1.copy(alloc)?;
            let value = trimmed_text(alloc, text)?;
            keys.push((key, value))
        }
    }
}

/// The used keys that count, with their values.
pub fn kept_keys(alloc: Global, purpose: Purpose, entries: &[Entry]) -> Result<Keys, NoMemory>
    ensures { IfOk result (λ keys. keys ≡ kept_keys purpose (entries_of (map entry_under entries.now))) }
{
    let mut keys = Keys::new(alloc);
    for entry in entries {
        let key = entry.1.as_str().as_bytes();
        keep_key(alloc, &mut keys, counts(purpose, key), key_kind(key), entry)?;
    }
    Ok(keys)
}
