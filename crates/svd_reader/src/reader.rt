ghost use Rattle.std.specs.Prelude.{◌≤◌, ◌≡◌, length, IfOk, IfErr};
ghost use Rattle.svd_model.specs.Keys.{Key};
ghost use Rattle.svd_reader.specs.Described.{Answer, HasAnswer, answer_in, at_fault, described};
ghost use Rattle.svd_reader.specs.Refusals.{Given, OrMemory, Refuses, Tells, Shows};
ghost use Rattle.svd_text.specs.Views.{element_of};

use crate::fault::SvdFault;
use crate::first_fault::first_fault;
use crate::peripheral::device;
use pac_base::{Text, TextFault as NotText};
use std::alloc::Global;
use svd_keys::Fault;
use svd_model::{Counted, Described};
use svd_schema::Container;
use svd_text::{Element, TextFault, read_element};

// How many elements a description may have.
const ELEMENT_LIMIT: u64 = 1_048_576;

fn element_fault(alloc: Global, fault: Fault) -> SvdFault
    ensures { OrMemory result (Tells result (at_fault fault)) }
{
    match fault {
        Fault::UnknownElement { span } => SvdFault::UnknownElement { span },
        Fault::DoubleElement { span } => SvdFault::DoubleElement { span },
        Fault::DoubleName { span } => SvdFault::DoubleName { span },
        Fault::BadValue { span, kind } => SvdFault::BadValue { span, kind },
        Fault::MissingElement { span, key } => match Text::new(alloc, key.name().as_bytes()) {
            Ok(key) => SvdFault::MissingElement { span, key },
            Err(NotText::NotUtf8) => unreachable!(),
            Err(NotText::Memory) => SvdFault::Memory,
        },
    }
}

fn text_fault(fault: TextFault) -> SvdFault
    ensures { Shows fault result }
{
    match fault {
        TextFault::Syntax { at } => SvdFault::Syntax { at },
        TextFault::TooDeep { span } => SvdFault::TooDeep { span },
        TextFault::Memory => SvdFault::Memory,
    }
}

// What a device element describes, unless something in it is at fault.
fn described(alloc: Global, element: &Element) -> Result<Described, SvdFault>
    ensures { Given result (answer_in (element_of element.now)) }
{
    let fault = first_fault(alloc, Container::Device, element)?;
    if let Some(placed) = fault {
        return Err(element_fault(alloc, placed.fault));
    }
    let device = device(alloc, element)?;
    let count = device.elements();
    if count > ELEMENT_LIMIT {
        let kind = Counted::Elements;
        return Err(SvdFault::TooMany { kind, count });
    }
    Ok(Described::new(device))
}

/// What a description says, of at most 67,108,864 bytes (CMSIS-SVD 1.3). The refusals, in the order in
/// which they are sought: `Syntax` exactly where the bytes spell no device element; `TooDeep` exactly
/// where elements nest deeper than 64; then the fault of least byte place, `UnknownElement`,
/// `DoubleElement`, `DoubleName`, `BadValue` or `MissingElement`; then `TooMany`, exactly where
/// peripherals, clusters, registers, fields and enumerated values together pass 1,048,576.
pub fn read_device(alloc: Global, bytes: &[u8]) -> Result<Described, SvdFault>
    requires { length bytes.now ≤ 67_108_864 }
    // The rows are those of the one element that the bytes spell, and nothing is at fault.
    ensures ok { IfOk result (λ rows. HasAnswer bytes.now (described rows)) }
    // A fault is the one that the bytes have.
    ensures refused { IfErr result (λ fault. OrMemory fault (Refuses bytes.now fault)) }
    // The answer to the bytes is given, unless memory runs out.
    ensures found { (answer : Answer) → HasAnswer bytes.now answer → Given result answer }
{
    match read_element(alloc, bytes) {
        Ok(element) => described(alloc, &element),
        Err(fault) => Err(text_fault(fault)),
    }
}
