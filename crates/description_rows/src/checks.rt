use derive_from::derive;
use dim_expand::unfold;
use overlap_check::{Policy, check};
use pac_base::NoMemory;
use pac_fault::{PacFault, fault_line};
use pac_io::{MemSink, SinkFault};
use std::alloc::Global;
use svd_model::{Derived, Described, Patched, Unfolded};
use svd_reader::read_device;

/// The first fault of a description in reading, in deriving, in unfolding, or else in checking.
fn fault(alloc: Global, text: &[u8], policy: Policy) -> Option<PacFault> {
    if text.len() > 67_108_864 {
        return None;
    }
    match read_device(alloc, text) {
        Ok(described) => fault_in_deriving(alloc, described, policy),
        Err(fault) => Some(PacFault::Svd(fault)),
    }
}

fn fault_in_deriving(alloc: Global, described: Described, policy: Policy) -> Option<PacFault> {
    match derive(alloc, Patched::new(described.into_device())) {
        Ok(derived) => fault_in_unfolding(alloc, derived, policy),
        Err(back) => Some(PacFault::Derive(back.fault)),
    }
}

fn fault_in_unfolding(alloc: Global, derived: Derived, policy: Policy) -> Option<PacFault> {
    match unfold(alloc, derived) {
        Ok(unfolded) => fault_in_checking(alloc, unfolded, policy),
        Err(back) => Some(PacFault::Dim(back.fault)),
    }
}

fn fault_in_checking(alloc: Global, unfolded: Unfolded, policy: Policy) -> Option<PacFault> {
    match check(alloc, unfolded, policy) {
        Ok(_) => None,
        Err(back) => Some(PacFault::Check(back.fault)),
    }
}

/// The line of a fault, which is empty where there is none.
fn line(alloc: Global, fault: &Option<PacFault>) -> Result<MemSink, SinkFault> {
    let mut line = MemSink::new(alloc);
    if let Some(fault) = fault {
        fault_line(alloc, fault)?.finish(&mut line)?;
    }
    Ok(line)
}

/// The parts one behind the other.
pub fn joined(alloc: Global, parts: &[&[u8]]) -> Result<Vec<u8>, NoMemory> {
    let mut bytes = Vec::new(alloc);
    for part in parts {
        bytes.extend_from_slice(part)?;
    }
    Ok(bytes)
}

const BEGINS: &[u8] =
    b"<device><name>D</name><peripherals><peripheral><name>T</name><baseAddress>0x40000000</baseAddress><registers>";

const ENDS: &[u8] = b"</registers></peripheral></peripherals></device>";

/// Whether the first fault of a description, whose peripheral `T` at 0x40000000 holds these registers, has this line.
pub fn tells(
    alloc: Global,
    registers: &[u8],
    policy: Policy,
    wanted: &[u8],
) -> Result<bool, SinkFault> {
    let text = joined(alloc, &[BEGINS, registers, ENDS])?;
    let fault = fault(alloc, text.as_slice(), policy);
    Ok(line(alloc, &fault)?.written() == wanted)
}
