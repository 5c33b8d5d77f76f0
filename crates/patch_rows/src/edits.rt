use glob_select::Pattern;
use patch_edits::{delete, open};
use patch_sem::PatchFault;
use std::alloc::Global;
use std::test::Fail;
use svd_model::Device;
use svd_reader::read_device;

// Five peripherals with a register each.
const TIMERS: &[u8] = b"<device><name>D</name><peripherals>\
    <peripheral><name>TIM1</name><baseAddress>0x40000000</baseAddress><registers><register><name>R</name><addressOffset>0</addressOffset></register></registers></peripheral>\
    <peripheral><name>TIM10</name><baseAddress>0x40001000</baseAddress><registers><register><name>R</name><addressOffset>0</addressOffset></register></registers></peripheral>\
    <peripheral><name>TIM4</name><baseAddress>0x40002000</baseAddress><registers><register><name>R</name><addressOffset>0</addressOffset></register></registers></peripheral>\
    <peripheral><name>USART1</name><baseAddress>0x40003000</baseAddress><registers><register><name>R</name><addressOffset>0</addressOffset></register></registers></peripheral>\
    <peripheral><name>USART10</name><baseAddress>0x40004000</baseAddress><registers><register><name>R</name><addressOffset>0</addressOffset></register></registers></peripheral>\
    </peripherals></device>";

// A register with two fields in a cluster in a cluster.
const NESTED: &[u8] = b"<device><name>D</name><peripherals>\
    <peripheral><name>T</name><baseAddress>0</baseAddress><registers>\
    <cluster><name>K</name><addressOffset>0</addressOffset>\
    <cluster><name>L</name><addressOffset>0</addressOffset>\
    <register><name>R</name><addressOffset>0</addressOffset><fields>\
    <field><name>F</name><bitOffset>0</bitOffset></field><field><name>G</name><bitOffset>1</bitOffset></field></fields></register>\
    <register><name>S</name><addressOffset>4</addressOffset></register>\
    </cluster></cluster></registers></peripheral></peripherals></device>";

fn patterns(alloc: Global, texts: &[&str]) -> Result<Vec<Pattern>, Fail> {
    let mut patterns = Vec::new(alloc);
    for text in texts {
        patterns.push(Pattern::new(alloc, text.as_bytes())?)?;
    }
    Ok(patterns)
}

fn is_named(device: &Device, place: usize, name: &[u8]) -> bool {
    match device.peripherals.get_index(place) {
        Some((key, _)) => key.name.bytes() == name,
        None => false,
    }
}

// The line of a refusal because nothing matches, and 0 for all else.
fn refused(done: &Result<(), PatchFault>) -> u32 {
    match done {
        Err(PatchFault::NoMatch { line }) => *line,
        _ => 0,
    }
}

#[test]
fn deletion_takes_away_all_that_match(rt: HostRuntime) -> Result<(), Fail> {
    let pattern = Pattern::new(rt.alloc(), b"TIM[1-3]*,USART?")?;
    let other = Pattern::new(rt.alloc(), b"I2C*")?;
    let mut device = read_device(rt.alloc(), TIMERS)?.into_device();
    let mut total = device.elements();
    delete(rt.alloc(), 1, &[], &pattern, &mut total, &mut device)?;
    assert!(rt; total == 4);
    assert!(rt; device.peripherals.len() == 2);
    assert!(rt; is_named(&device, 0, b"TIM4"));
    assert!(rt; is_named(&device, 1, b"USART10"));
    assert!(rt; refused(&delete(rt.alloc(), 1, &[], &other, &mut total, &mut device)) == 1);
    Ok(())
}

#[test]
fn a_register_in_a_cluster_in_a_cluster_is_deleted(rt: HostRuntime) -> Result<(), Fail> {
    let parents = patterns(rt.alloc(), &["T", "K", "*"])?;
    let pattern = Pattern::new(rt.alloc(), b"R")?;
    let mut device = read_device(rt.alloc(), NESTED)?.into_device();
    let mut total = device.elements();
    open(
        rt.alloc(),
        4,
        parents.as_slice(),
        &pattern,
        &mut total,
        &mut device,
    )?;
    assert!(rt; total == 7);
    delete(
        rt.alloc(),
        5,
        parents.as_slice(),
        &pattern,
        &mut total,
        &mut device,
    )?;
    assert!(rt; total == 4 && device.elements() == 4);
    Ok(())
}

#[test]
fn nothing_matches_in_a_field(rt: HostRuntime) -> Result<(), Fail> {
    let parents = patterns(rt.alloc(), &["T", "K", "L", "R", "G"])?;
    let pattern = Pattern::new(rt.alloc(), b"*")?;
    let mut device = read_device(rt.alloc(), NESTED)?.into_device();
    let mut total = device.elements();
    let done = delete(
        rt.alloc(),
        7,
        parents.as_slice(),
        &pattern,
        &mut total,
        &mut device,
    );
    assert!(rt; refused(&done) == 7);
    Ok(())
}
