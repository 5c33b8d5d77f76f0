ghost use Rattle.std.specs.Prelude.{◌≡◌, IfOk, OnOk, codes};
ghost use Rattle.yaml_block.specs.Nodes.{node_tree};
ghost use Rattle.glob_select.specs.Refusals.{IsPattern};
ghost use Rattle.glob_select.specs.Reading.{alternatives_of};
ghost use Rattle.patch_model.specs.Acts.{GrowsBy, adds_one, arrays, copies, deed_of, modifies, modifies_device};
ghost use Rattle.patch_form.specs.Unmet.{AllMet};
ghost use Rattle.patch_form.specs.Finding.{at_of};
ghost use Rattle.patch_form.specs.Forms.{NamesArray, array_name, first_alternative};
ghost use Rattle.patch_model.specs.Held.{IsTextMet, addition_entry, deed_demands};
ghost use Rattle.patch_form.specs.Mappings.{array_entry, copy_entry, modify_by, modify_entry};
ghost use Rattle.patch_model.specs.Orders.{NamedAt, NamedBy, added_one, device_kept, entry_deed, keys_of, modify_at, modify_deed, name_by, name_for, order, text_deed, text_of, text_there};
ghost use Rattle.patch_form.specs.declared.word.Purpose.TheVariants as purposes;

use crate::act::{Act, Command, Commands, Keys, Patterns};
use crate::added::added_one;
use crate::kept::{keep_key, kept_keys};
use crate::leaf::{entries_in, name_of, pattern_of};
use pac_base::{Name, NoMemory, Text};
use patch_form::form::{KeyKind, trimmed};
use patch_form::naming::name_of_pattern;
use patch_form::place::{Entry, at_key, scalar};
use patch_form::table::device_key;
use patch_form::word::{Purpose, TextWord, Word};
use std::alloc::Global;
use yaml_block::Node;

/// The same patterns once more.
pub fn copied(alloc: Global, patterns: &Patterns) -> Result<Patterns, NoMemory>
    ensures { IfOk result (λ copy. copy ≡ patterns.now) }
{
    let mut copy = Patterns::new(alloc);
    for pattern in patterns.as_slice() {
        copy.push(pattern.copy()?)?;
    }
    Ok(copy)
}

/// Adds a command.
pub fn put(
    alloc: Global,
    line: u32,
    act: Act,
    parents: &Patterns,
    made: &mut Commands,
) -> Result<(), NoMemory>
    ensures { OnOk result (GrowsBy made.old made.new (order line parents.now (deed_of act))) }
{
    let parents = copied(alloc, parents)?;
    made.push(Command { line, parents, act })
}

/// The name that is the value of a key, which is there.
fn name_at(alloc: Global, entry: Option<&Entry>) -> Result<Name, NoMemory>
    requires named { NamedAt (at_of entry) }
    ensures { IfOk result (λ name. name ≡ text_there (at_of entry.entry)) }
{
    match entry {
        None => unreachable!(),
        Some(found) => match scalar(&found.2) {
            None => unreachable!(),
            Some(text) => name_of(alloc, trimmed(text.as_str().as_bytes())),
        },
    }
}

/// What an entry of `_copy` does.
pub fn copy_act(alloc: Global, line: u32, name: &Text, node: &Node) -> Result<Act, NoMemory>
    requires met { AllMet (copy_entry line name.now (node_tree node.now)) }
    ensures { IfOk result (λ act. deed_of act ≡ copies name.now (text_of (codes "from") (node_tree node.now)) (keys_of purposes.Copying (node_tree node.now))) }
{
    let entries = entries_in(node);
    let name = name_of(alloc, name.as_str().as_bytes())?;
    let from = name_at(alloc, at_key(entries, b"from"))?;
    let keys = kept_keys(alloc, Purpose::Copying, entries)?;
    Ok(Act::Copy { name, from, keys })
}

/// What an entry of `_modify` that is no key of the device does.
pub fn modify_act(alloc: Global, target: &Text, node: &Node) -> Result<Act, NoMemory>
    requires spelled { IsPattern target.now }
    ensures { IfOk result (λ act. deed_of act ≡ modifies (alternatives_of target.now) (keys_of purposes.Modifying (node_tree node.now))) }
{
    let target = pattern_of(alloc, target)?;
    let keys = kept_keys(alloc, Purpose::Modifying, entries_in(node))?;
    Ok(Act::Modify { target, keys })
}

/// The name that the pattern of an array gives, which gives one.
fn own_name(alloc: Global, target: &Text) -> Result<Name, NoMemory>
    requires names { NamesArray target.now }
    ensures { IfOk result (λ name. name ≡ array_name (first_alternative (alternatives_of target.now))) }
{
    match name_of_pattern(alloc, target.as_str().as_bytes())? {
        Some(name) => Ok(name),
        None => unreachable!(),
    }
}

/// The name of an array: its own, or its pattern's.
fn array_name(alloc: Global, target: &Text, name: Option<&Entry>) -> Result<Name, NoMemory>
    requires named { NamedBy target.now (at_of name) }
    ensures { IfOk result (λ made. made ≡ name_by target.now (at_of name.entry)) }
{
    match name {
        None => own_name(alloc, target),
        Some(_) => name_at(alloc, name),
    }
}

/// What an entry of `_array` does.
pub fn array_act(alloc: Global, line: u32, target: &Text, node: &Node) -> Result<Act, NoMemory>
    requires met { AllMet (array_entry line target.now (node_tree node.now)) }
    ensures { IfOk result (λ act. deed_of act ≡ arrays (alternatives_of target.now) (name_for target.now (node_tree node.now))) }
{
    let entries = entries_in(node);
    let name = array_name(alloc, target, at_key(entries, b"name"))?;
    let target = pattern_of(alloc, target)?;
    Ok(Act::Array { target, name })
}

fn device_act(alloc: Global, kind: Option<KeyKind>, entry: &Entry) -> Result<Act, NoMemory>
    ensures { IfOk result (λ act. deed_of act ≡ modifies_device (device_kept kind entry.now.1 (node_tree entry.now.2))) }
{
    let mut keys = Keys::new(alloc);
    keep_key(alloc, &mut keys, true, kind, entry)?;
    Ok(Act::ModifyDevice(keys))
}

fn modify_by(alloc: Global, own: Option<Option<KeyKind>>, entry: &Entry) -> Result<Act, NoMemory>
    requires met { AllMet (modify_by own entry.now.0 entry.now.1 (node_tree entry.now.2)) }
    ensures { IfOk result (λ act. deed_of act ≡ modify_deed own entry.now.1 (node_tree entry.now.2)) }
{
    match own {
        Some(kind) => device_act(alloc, kind, entry),
        None => modify_act(alloc, &entry.1, &entry.2),
    }
}

fn modify_at(alloc: Global, device: bool, entry: &Entry) -> Result<Act, NoMemory>
    requires met { AllMet (modify_entry device entry.now.0 entry.now.1 (node_tree entry.now.2)) }
    ensures { IfOk result (λ act. deed_of act ≡ modify_at device entry.now.1 (node_tree entry.now.2)) }
{
    if device {
        let own = device_key(entry.1.as_str().as_bytes());
        modify_by(alloc, own, entry)
    } else {
        modify_by(alloc, None, entry)
    }
}

fn add_act(alloc: Global, entry: &Entry) -> Result<Act, NoMemory>
    requires met { AllMet (addition_entry entry.now.0 entry.now.1 (node_tree entry.now.2)) }
    ensures { IfOk result (λ act. deed_of act ≡ adds_one (added_one entry.now.1 (node_tree entry.now.2))) }
{
    Ok(Act::Add(added_one(alloc, entry.0, &entry.1, &entry.2)?))
}

/// What a text of `_delete` or `_strip` does.
pub fn text_act(alloc: Global, word: TextWord, text: &Text) -> Result<Act, NoMemory>
    requires met { IsTextMet word text.now }
    ensures { IfOk result (λ act. deed_of act ≡ text_deed word text.now) }
{
    match word {
        TextWord::Delete => Ok(Act::Delete(pattern_of(alloc, text)?)),
        TextWord::Strip => Ok(Act::Strip(text.copy(alloc)?)),
    }
}

/// What an entry of a command's mapping does.
pub fn entry_act(alloc: Global, word: Word, device: bool, entry: &Entry) -> Result<Act, NoMemory>
    requires met { AllMet (deed_demands word device entry.now.0 entry.now.1 (node_tree entry.now.2)) }
    ensures { IfOk result (λ act. deed_of act ≡ entry_deed word device entry.now.1 (node_tree entry.now.2)) }
{
    match word {
        Word::Delete => text_act(alloc, TextWord::Delete, &entry.1),
        Word::Copy => copy_act(alloc, entry.0, &entry.1, &entry.2),
        Word::Modify => modify_at(alloc, device, entry),
        Word::Add => add_act(alloc, entry),
        Word::Strip => text_act(alloc, TextWord::Strip, &entry.1),
        Word::Array => array_act(alloc, entry.0, &entry.1, &entry.2),
    }
}
