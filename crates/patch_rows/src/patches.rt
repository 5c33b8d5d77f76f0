use crate::told::told;
use glob_select::Pattern;
use patch_model::{Act, Command, CommandFault, Commands, commands};
use std::alloc::{AllocError, Global};
use std::test::Fail;
use yaml_block::read_block;

fn commands_in(alloc: Global, text: &str) -> Result<Result<Commands, CommandFault>, Fail> {
    if text.len() > 1000 {
        return Err(Fail::from("a short text"));
    }
    let node = read_block(alloc, text.as_bytes())?;
    Ok(commands(alloc, &node))
}

fn is_pattern(pattern: &Pattern, name: &str) -> bool {
    pattern.matches(name.as_bytes())
}

fn is_target(act: &Act, name: &str) -> bool {
    match act {
        Act::Open(pattern) => is_pattern(pattern, name),
        Act::Delete(pattern) => is_pattern(pattern, name),
        Act::Modify { target, keys: _ } => is_pattern(target, name),
        Act::Array { target, name: _ } => is_pattern(target, name),
        _ => name.is_empty(),
    }
}

fn are_parents(parents: &[Pattern], name: &str) -> bool {
    match parents {
        [] => name.is_empty(),
        [one] => is_pattern(one, name),
        _ => false,
    }
}

/// A command: its line, a name that its parent matches, one that its pattern matches, and what else
/// it holds.
type Row = (u32, &'static str, &'static str, &'static str);

fn is_row(alloc: Global, command: &Command, row: Row) -> Result<bool, AllocError> {
    let shown = told(alloc, &command.act)?;
    Ok(
        command.line == row.0
            && are_parents(command.parents.as_slice(), row.1)
            && is_target(&command.act, row.2)
            && shown.as_slice() == row.3.as_bytes(),
    )
}

fn have_rows(alloc: Global, made: &Commands, rows: &[Row]) -> Result<bool, AllocError> {
    for (index, row) in rows.iter().enumerate() {
        match made.get(index) {
            Some(command) => {
                if !is_row(alloc, command, *row)? {
                    return Ok(false);
                }
            }
            None => return Ok(false),
        }
    }
    Ok(made.len() == rows.len())
}

/// Whether the commands of a text are these.
fn are_rows(alloc: Global, text: &str, rows: &[Row]) -> Result<bool, Fail> {
    match commands_in(alloc, text)? {
        Ok(made) => Ok(have_rows(alloc, &made, rows)?),
        Err(_) => Ok(false),
    }
}

const DELETIONS_FIRST: &[Row] = &[
    (1, "", "T", "open"),
    (1, "T", "B", "delete"),
    (1, "T", "", "strip A_"),
];

#[test]
fn deletions_come_before_prefixes(rt: HostRuntime) -> Result<(), Fail> {
    let text = "T: {_strip: A_, _delete: B}";
    assert!(rt; are_rows(rt.alloc(), text, DELETIONS_FIRST)?);
    Ok(())
}

const VENDOR: &str = "_svd: ex32f1.svd

TIM2:
  _delete:
    - TIM_OLD
  _copy:
    TIM_PSC:
      from: TIM_CNT
      addressOffset: 0x28
  _modify:
    TIM_SR:
      modifiedWriteValues: zeroToClear
  _add:
    TIM_EGR:
      addressOffset: 0x14
      access: write-only
      fields:
        UG:
          bitOffset: 0
          bitWidth: 1
  _strip: TIM_
  _array:
    CCR*: {}
";

const VENDOR_ROWS: &[Row] = &[
    (3, "", "TIM2", "open"),
    (5, "TIM2", "TIM_OLD", "delete"),
    (7, "TIM2", "", "copy TIM_PSC TIM_CNT addressOffset=0x28"),
    (
        11,
        "TIM2",
        "TIM_SR",
        "modify modifiedWriteValues=zeroToClear",
    ),
    (
        14,
        "TIM2",
        "",
        "add TIM_EGR addressOffset=0x14 access=write-only field UG bitOffset=0 bitWidth=1",
    ),
    (21, "TIM2", "", "strip TIM_"),
    (23, "TIM2", "CCR1", "array CCR[%s]"),
];

#[test]
fn commands_of_a_vendors_patch(rt: HostRuntime) -> Result<(), Fail> {
    assert!(rt; are_rows(rt.alloc(), VENDOR, VENDOR_ROWS)?);
    Ok(())
}

fn fault_in(alloc: Global, text: &str) -> Result<(&'static str, u32), Fail> {
    match commands_in(alloc, text)? {
        Ok(_) => Ok(("commands", 0)),
        Err(CommandFault::UnknownCommand { line }) => Ok(("unknown command", line)),
        Err(CommandFault::UnknownKey { line }) => Ok(("unknown key", line)),
        Err(CommandFault::BadValue { line }) => Ok(("bad value", line)),
        Err(CommandFault::BadPattern { line }) => Ok(("bad pattern", line)),
        Err(_) => Ok(("no memory", 0)),
    }
}

/// Texts, and the first fault of each: by line, and on one line by kind.
const FAULTS: &[(&str, &str, u32)] = &[
    ("_include: x.yaml", "unknown command", 1),
    ("T[:", "bad pattern", 1),
    ("T: {_delete: 'A[', _frob: B}", "unknown command", 1),
    (
        "T:\n  _copy:\n    S:\n      size: q\n      nosuch: 1\n  U[:\n",
        "bad value",
        3,
    ),
];

#[test]
fn block_and_command_faults(rt: HostRuntime) -> Result<(), Fail> {
    for &(text, said, line) in FAULTS {
        assert!(rt; fault_in(rt.alloc(), text)? == (said, line), "{text}");
    }
    Ok(())
}
