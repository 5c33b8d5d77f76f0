use patch_model::{Act, Addition, Keys};
use std::alloc::{AllocError, Global};

/// What a command holds beside its patterns, in words with a space between.
pub fn told(alloc: Global, act: &Act) -> Result<Vec<u8>, AllocError> {
    let mut shown = Vec::new(alloc);
    push_act(&mut shown, act)?;
    Ok(shown)
}

fn push_word(shown: &mut Vec<u8>, word: &[u8]) -> Result<(), AllocError> {
    if !shown.is_empty() {
        shown.push(b' ')?;
    }
    shown.extend_from_slice(word)
}

fn push_keys(shown: &mut Vec<u8>, keys: &Keys) -> Result<(), AllocError> {
    for (key, value) in keys.as_slice() {
        push_word(shown, key.as_str().as_bytes())?;
        shown.push(b'=')?;
        shown.extend_from_slice(value.as_str().as_bytes())?;
    }
    Ok(())
}

fn push_field(shown: &mut Vec<u8>, field: &Addition) -> Result<(), AllocError> {
    push_word(shown, b"field")?;
    push_word(shown, field.name.bytes())?;
    push_keys(shown, &field.keys)
}

fn push_addition(shown: &mut Vec<u8>, added: &Addition) -> Result<(), AllocError> {
    push_word(shown, added.name.bytes())?;
    push_keys(shown, &added.keys)?;
    for field in added.fields.items.as_slice() {
        push_field(shown, field)?;
    }
    Ok(())
}

fn push_act(shown: &mut Vec<u8>, act: &Act) -> Result<(), AllocError> {
    match act {
        Act::Open(_) => push_word(shown, b"open"),
        Act::Delete(_) => push_word(shown, b"delete"),
        Act::Copy { name, from, keys } => {
            push_word(shown, b"copy")?;
            push_word(shown, name.bytes())?;
            push_word(shown, from.bytes())?;
            push_keys(shown, keys)
        }
        Act::Modify { target: _, keys } => {
            push_word(shown, b"modify")?;
            push_keys(shown, keys)
        }
        Act::ModifyDevice(keys) => {
            push_word(shown, b"device")?;
            push_keys(shown, keys)
        }
        Act::Add(added) => {
            push_word(shown, b"add")?;
            push_addition(shown, added)
        }
        Act::Strip(prefix) => {
            push_word(shown, b"strip")?;
            push_word(shown, prefix.as_str().as_bytes())
        }
        Act::Array { target: _, name } => {
            push_word(shown, b"array")?;
            push_word(shown, name.bytes())
        }
    }
}
