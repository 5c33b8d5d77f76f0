use pac_base::{Name, NameFault, NoMemory, Path, Step, Text, TextFault};
use std::alloc::Global;
use std::test::Fail;
use svd_values::{accessor, is_call, slot_name, variant_call};

const NAMES: &[&str] = &["CR", "cr1", "_", "0", "CH%s", "%s", "C%sH", "CH[%s]"];

const NO_NAMES: &[&str] = &[
    "", "[%s]", "A B", "A-B", "CH%", "%s%s", "CH[%s]X", "CH%s[%s]", "CH[%S]",
];

/// Whether a text is a name, and its copy that text.
fn is_name(alloc: Global, text: &str) -> Result<bool, NoMemory> {
    match Name::new(alloc, text.as_bytes()) {
        Ok(name) => Ok(name.copy(alloc)?.bytes() == text.as_bytes()),
        Err(NameFault::NotAName) => Ok(false),
        Err(NameFault::Memory) => Err(NoMemory),
    }
}

#[test]
fn names_are_words_with_one_mark(rt: HostRuntime) -> Result<(), Fail> {
    for &text in NAMES {
        assert!(rt; is_name(rt.alloc(), text)?, "{text}");
    }
    for &text in NO_NAMES {
        assert!(rt; !is_name(rt.alloc(), text)?, "{text}");
    }
    Ok(())
}

#[test]
fn texts_are_utf8(rt: HostRuntime) -> Result<(), Fail> {
    let text = Text::new(rt.alloc(), "Timers \u{e9}".as_bytes())?;
    assert!(rt; text.copy(rt.alloc())?.as_str() == "Timers \u{e9}");
    let refused = Text::new(rt.alloc(), &[0xc3]);
    assert!(rt; matches!(refused, Err(TextFault::NotUtf8)));
    Ok(())
}

#[test]
fn a_path_grows_by_steps(rt: HostRuntime) -> Result<(), Fail> {
    let mut path = Path::new(rt.alloc());
    path.push(Step {
        name: Name::new(rt.alloc(), b"CH")?,
        index: Some(3),
    })?;
    assert!(rt; path.len() == 1);
    assert!(rt; path.get(0).is_some_and(|step| step.index == Some(3)));
    Ok(())
}

// Written names, with the accessor that each gives.
const ACCESSORS: &[(&str, &str)] = &[
    ("type", "type_"),
    ("READ", "read_"),
    ("at_bit", "at_bit_"),
    ("CH[%s]", "ch"),
    ("2ND", "_2nd"),
    ("_reserved0", "_reserved0_"),
    ("_", "__"),
    ("CCMR1_OUTPUT", "ccmr1_output"),
];

// Written names, with the slot that each gives.
const SLOTS: &[(&str, &str)] = &[("Self", "Self_"), ("READ", "READ"), ("1WIRE", "_1WIRE")];

/// Whether a written name gives this accessor.
fn has_accessor(alloc: Global, written: &str, call: &str) -> Result<bool, NoMemory> {
    match Name::new(alloc, written.as_bytes()) {
        Ok(name) => Ok(accessor(alloc, &name)?.bytes() == call.as_bytes()),
        Err(_) => Ok(false),
    }
}

/// Whether a written name gives this slot.
fn has_slot(alloc: Global, written: &str, slot: &str) -> Result<bool, NoMemory> {
    match Name::new(alloc, written.as_bytes()) {
        Ok(name) => Ok(slot_name(alloc, &name)?.bytes() == slot.as_bytes()),
        Err(_) => Ok(false),
    }
}

#[test]
fn keyword_names(rt: HostRuntime) -> Result<(), Fail> {
    for &(written, call) in ACCESSORS {
        assert!(rt; has_accessor(rt.alloc(), written, call)?, "{written}");
    }
    for &(written, slot) in SLOTS {
        assert!(rt; has_slot(rt.alloc(), written, slot)?, "{written}");
    }
    Ok(())
}

// Names of enumerated values, with the call that writes each and the one that asks for it.
const VALUE_CALLS: &[(&str, &str, &str)] = &[
    ("1/2 Div", "_1_2_div", "is_1_2_div"),
    ("Write", "write_", "is_write"),
    ("At bit", "at_bit_", "is_at_bit"),
];

/// Whether a value of this name has these calls.
fn has_calls(alloc: Global, written: &str, writes: &str, asks: &str) -> Result<bool, NoMemory> {
    if written.is_empty() {
        return Ok(false);
    }
    match Text::new(alloc, written.as_bytes()) {
        Ok(name) => Ok(
            variant_call(alloc, &name)?.bytes() == writes.as_bytes()
                && is_call(alloc, &name)?.bytes() == asks.as_bytes(),
        ),
        Err(_) => Ok(false),
    }
}

#[test]
fn calls_of_values(rt: HostRuntime) -> Result<(), Fail> {
    for &(written, writes, asks) in VALUE_CALLS {
        assert!(rt; has_calls(rt.alloc(), written, writes, asks)?, "{written}");
    }
    Ok(())
}
