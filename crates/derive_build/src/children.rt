//! The children of an element, where those of its source are known.
ghost use Rattle.std.specs.Prelude.{◌≡◌, ◌++◌, ◌&&◌, ◌∷◌, [], List, ℕ, cond, not, IfOk, OnOk};
ghost use Rattle.derive_build.specs.Nodes.{own_node};
ghost use Rattle.derive_build.specs.Children.{node_at, child_of, children_of, HoldsFirst, HoldsNames};
ghost use Rattle.derived_rows.specs.Merging.{has_named, replaced_by, kept, added, merged};

use crate::names::Names;
use crate::own::Own;
use pac_base::NoMemory;
use std::alloc::Global;

/// The written name of an element, which is empty for the device and for a set without one.
pub(crate) fn own_name<'a>(own: Own<'a>) -> &'a [u8]
    ensures { result.now ≡ (own_node own.entry).name }
{
    match own {
        Own::Peripheral(key, _) => key.name.bytes(),
        Own::Cluster(key, _) => key.name.bytes(),
        Own::Register(key, _) => key.name.bytes(),
        Own::Field(key, _) => key.name.bytes(),
        Own::Set(set) => match &set.name {
            Some(name) => name.bytes(),
            None => b"",
        },
        Own::Value(value) => value.name.as_str().as_bytes(),
        Own::Device(_) => b"",
    }
}

/// The written name of the element of a number.
fn name_of<'a>(owns: &[Own<'a>], number: usize) -> &'a [u8]
    ensures { result.now ≡ (node_at owns.now number).name }
{
    match owns.get(number) {
        Some(own) => own_name(*own),
        None => b"",
    }
}

/// The first of these children by each name.
fn first_by_name<'a>(
    alloc: Global,
    owns: &[Own<'a>],
    children: &[usize],
) -> Result<Names<'a>, NoMemory>
    ensures { IfOk result (HoldsFirst (children_of owns.now children.now)) }
{
    let mut index = Names::new(alloc);
    let mut past = children.len();
    while past > 0 {
        past -= 1;
        let child = children[past];
        index.set(name_of(owns, child), child)?;
    }
    Ok(index)
}

/// Keeps a child of the source, or the first own child of its name in its place. Where such a one stands already, none.
fn keep<'a>(
    owns: &[Own<'a>],
    own: &Names<'a>,
    passed: &Names<'a>,
    child: usize,
    made: &mut Vec<usize>,
) -> Result<(), NoMemory>
    ensures { OnOk result ((mine before : List ℕ) → HoldsFirst (children_of owns.now mine) own.now → HoldsNames (children_of owns.now before) passed.now → children_of owns.now made.new.items ≡ children_of owns.now made.old.items ++ cond (has_named (children_of owns.now mine) (child_of owns.now child) && has_named (children_of owns.now before) (child_of owns.now child)) [] (replaced_by (children_of owns.now mine) (child_of owns.now child) ∷ [])) }
{
    let name = name_of(owns, child);
    match own.get(name) {
        Some(first) => {
            if passed.has(name) {
                return Ok(());
            }
            made.push(first)?;
            Ok(())
        }
        None => {
            made.push(child)?;
            Ok(())
        }
    }
}

/// Adds an own child, but for the first of a name that the source has.
fn add<'a>(
    owns: &[Own<'a>],
    source: &Names<'a>,
    passed: &Names<'a>,
    child: usize,
    made: &mut Vec<usize>,
) -> Result<(), NoMemory>
    ensures { OnOk result ((theirs before : List ℕ) → HoldsNames (children_of owns.now theirs) source.now → HoldsNames (children_of owns.now before) passed.now → children_of owns.now made.new.items ≡ children_of owns.now made.old.items ++ cond (has_named (children_of owns.now theirs) (child_of owns.now child) && not (has_named (children_of owns.now before) (child_of owns.now child))) [] (child_of owns.now child ∷ [])) }
{
    let name = name_of(owns, child);
    if source.has(name) {
        if passed.has(name) {
            made.push(child)?;
        }
        return Ok(());
    }
    made.push(child)?;
    Ok(())
}

/// The children of the source in their order, each replaced by the own child of its name; their names are put into
/// `passed`.
fn keep_all<'a>(
    alloc: Global,
    owns: &[Own<'a>],
    source: &[usize],
    own: &[usize],
    passed: &mut Names<'a>,
) -> Result<Vec<usize>, NoMemory>
    requires { passed.now ≡ [] }
    ensures made { IfOk result (λ made. children_of owns.now made.items ≡ kept [] (children_of owns.now source.now) (children_of owns.now own.now)) }
    ensures names { OnOk result (HoldsNames (children_of owns.now source.now) passed.new) }
{
    let index = first_by_name(alloc, owns, own)?;
    let mut made = Vec::new(alloc);
    for child in source {
        keep(owns, &index, passed, *child, &mut made)?;
        passed.set(name_of(owns, *child), *child)?;
    }
    Ok(made)
}

/// Adds the other own children, where these are the names of the source's.
fn add_all<'a>(
    alloc: Global,
    owns: &[Own<'a>],
    source: &Names<'a>,
    own: &[usize],
    made: &mut Vec<usize>,
) -> Result<(), NoMemory>
    ensures { OnOk result ((theirs : List ℕ) → HoldsNames (children_of owns.now theirs) source.now → children_of owns.now made.new.items ≡ children_of owns.now made.old.items ++ added [] (children_of owns.now theirs) (children_of owns.now own.now)) }
{
    let mut passed = Names::new(alloc);
    for child in own {
        add(owns, source, &passed, *child, made)?;
        passed.set(name_of(owns, *child), *child)?;
    }
    Ok(())
}

/// The children of the source in their order, each replaced by the own child of its name where there is one; then the
/// other own children.
pub fn merged<'a>(
    alloc: Global,
    owns: &[Own<'a>],
    source: &[usize],
    own: &[usize],
) -> Result<Vec<usize>, NoMemory>
    ensures { IfOk result (λ made. children_of owns.now made.items ≡ merged (children_of owns.now source.now) (children_of owns.now own.now)) }
{
    let mut names = Names::new(alloc);
    let mut made = keep_all(alloc, owns, source, own, &mut names)?;
    add_all(alloc, owns, &names, own, &mut made)?;
    Ok(made)
}
