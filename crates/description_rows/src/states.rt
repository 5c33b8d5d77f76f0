use crate::vendor::VENDOR;
use derive_from::{DeriveFault, derive};
use pac_base::Back;
use std::test::Fail;
use svd_model::{Derived, Device, Patched};
use svd_reader::read_device;

/// Whether this is the device of the vendor's file, by its name and how many elements it has.
fn is_vendors(device: &Device, elements: u64) -> bool {
    device.name.as_str() == "EX32F1"
        && device.peripherals.len() == 2
        && device.elements() == elements
}

/// Whether `TIM3` has the six registers of `TIM2`, with their three fields and two values.
fn is_derived(derived: &Result<Derived, Back<Patched, DeriveFault>>) -> bool {
    match derived {
        Ok(state) => is_vendors(state.device(), 24),
        Err(_) => false,
    }
}

#[test]
fn a_vendors_file_is_read_copied_and_derived(rt: HostRuntime) -> Result<(), Fail> {
    let read = read_device(rt.alloc(), VENDOR)?;
    let copy = read.copy(rt.alloc())?;
    assert!(rt; is_vendors(copy.device(), 13));
    let derived = derive(rt.alloc(), Patched::new(copy.into_device()));
    assert!(rt; is_derived(&derived));
    Ok(())
}
