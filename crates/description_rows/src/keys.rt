use std::alloc::Global;
use std::test::Fail;
use svd_keys::{own_keys, read_keys};
use svd_schema::Container;
use svd_text::{Element, read_element};

/// The size that a device states; None where something is wrong with what it states.
fn stated_size(alloc: Global, device: &Element) -> Result<Option<u64>, Fail> {
    let stated = read_keys(alloc, Container::Device, device)?;
    match &stated.fault {
        Some(_) => Ok(None),
        None => Ok(stated.keys.props.size),
    }
}

/// Whether a device states this name.
fn states_name(alloc: Global, device: &Element, name: &str) -> Result<bool, Fail> {
    let keys = own_keys(alloc, Container::Device, device)?;
    match &keys.label {
        Some(label) => Ok(label.as_str() == name),
        None => Ok(false),
    }
}

#[test]
fn keys_of_a_device(rt: HostRuntime) -> Result<(), Fail> {
    let device = read_element(
        rt.alloc(),
        b"<device><name>D</name><size>8</size><peripherals/></device>",
    )?;
    assert!(rt; stated_size(rt.alloc(), &device)? == Some(8));
    assert!(rt; states_name(rt.alloc(), &device, "D")?);
    Ok(())
}
