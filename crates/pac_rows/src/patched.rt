use crate::harness::{Wanted, answers, described, listing, refusal};
use pac_base::NoMemory;
use std::alloc::Global;
use std::test::Fail;

/// Whether `pac` with these words, over a description `x.svd`, a patch `p.yaml` and a script `s`, answers so.
fn patches(
    alloc: Global,
    words: &[&str],
    description: &[u8],
    patch: &[u8],
    script: &[u8],
    wanted: &Wanted<'_>,
) -> Result<bool, NoMemory> {
    let files = [("x.svd", description), ("p.yaml", patch), ("s", script)];
    answers(alloc, words, &files, wanted)
}

/// Whether a description with a patch is listed so.
fn lists(
    alloc: Global,
    description: &[u8],
    patch: &[u8],
    wanted: &Wanted<'_>,
) -> Result<bool, NoMemory> {
    let words = ["list", "x.svd", "--patch", "p.yaml"];
    patches(alloc, &words, description, patch, b"", wanted)
}

/// Whether registers of `T` with a patch are listed so.
fn lists_registers(
    alloc: Global,
    registers: &[u8],
    patch: &[u8],
    wanted: &Wanted<'_>,
) -> Result<bool, NoMemory> {
    let description = described(alloc, registers)?;
    lists(alloc, description.as_slice(), patch, wanted)
}

/// Two registers.
const A_AND_B: &[u8] =
    b"<register><name>A</name><addressOffset>0</addressOffset></register><register><name>B</name><addressOffset>4</addressOffset></register>";

/// A register with a field of two bits, and one that states no width.
const F_AND_G: &[u8] =
    b"<register><name>A</name><addressOffset>0</addressOffset><fields><field><name>F</name><bitOffset>0</bitOffset><bitWidth>2</bitWidth></field><field><name>G</name><bitOffset>4</bitOffset></field></fields></register>";

/// A register in a cluster in a cluster.
const DEEP: &[u8] =
    b"<cluster><name>C</name><addressOffset>0</addressOffset><cluster><name>D</name><addressOffset>4</addressOffset><register><name>R</name><addressOffset>0</addressOffset></register></cluster></cluster>";

/// Registers that become an array, the first behind the second, and one between them.
const C1_D_C0: &[u8] =
    b"<register><name>C1</name><addressOffset>4</addressOffset></register><register><name>D</name><addressOffset>8</addressOffset></register><register><name>C0</name><addressOffset>0</addressOffset></register>";

// Registers of `T`, a patch, and the lines that list what it leaves.
const MENDED: &[(&str, &[u8], &[u8], &[u8])] = &[
    (
        "no_command",
        A_AND_B,
        b"",
        b"T.a 0x40000000 32 rw 0x00000000\nT.b 0x40000004 32 rw 0x00000000\n",
    ),
    (
        "misaligned_and_mended",
        b"<register><name>A</name><addressOffset>2</addressOffset></register>",
        b"T:\n  _modify:\n    A:\n      size: 16\n",
        b"T.a 0x40000002 16 rw 0x0000\n",
    ),
    (
        "renamed_in_its_place",
        A_AND_B,
        b"T:\n  _modify:\n    A: {name: C}\n",
        b"T.c 0x40000000 32 rw 0x00000000\nT.b 0x40000004 32 rw 0x00000000\n",
    ),
    (
        "within_clusters",
        DEEP,
        b"T:\n  C:\n    D:\n      _modify:\n        R:\n          access: read-only\n",
        b"T.c.d.r 0x40000004 32 ro 0x00000000\n",
    ),
    // The device's own size is that of all registers that state none.
    (
        "a_device_key",
        A_AND_B,
        b"_modify:\n  size: 16\n",
        b"T.a 0x40000000 16 rw 0x0000\nT.b 0x40000004 16 rw 0x0000\n",
    ),
    // G has the width of F, since it states none.
    (
        "a_field_made_a_derived_one",
        F_AND_G,
        b"T:\n  A:\n    _modify:\n      G:\n        derivedFrom: F\n",
        b"T.a 0x40000000 32 rw 0x00000000\n  f [1:0] rw modify\n  g [5:4] rw modify\n",
    ),
    (
        "copied",
        F_AND_G,
        b"T:\n  _copy:\n    B:\n      from: A\n      addressOffset: 8\n",
        b"T.a 0x40000000 32 rw 0x00000000\n  f [1:0] rw modify\n  g [4:4] rw modify\nT.b 0x40000008 32 rw 0x00000000\n  f [1:0] rw modify\n  g [4:4] rw modify\n",
    ),
    (
        "added",
        A_AND_B,
        b"_add:\n  U:\n    baseAddress: 0x50000000\n    registers:\n      R:\n        addressOffset: 4\n        fields:\n          F: {bitOffset: 3, bitWidth: 1}\n",
        b"T.a 0x40000000 32 rw 0x00000000\nT.b 0x40000004 32 rw 0x00000000\nU.r 0x50000004 32 rw 0x00000000\n  f [3:3] rw modify\n",
    ),
    (
        "stripped",
        b"<register><name>A_X</name><addressOffset>0</addressOffset></register><register><name>B</name><addressOffset>4</addressOffset></register><register><name>A_</name><addressOffset>8</addressOffset></register>",
        b"T:\n  _strip: A_\n",
        b"T.x 0x40000000 32 rw 0x00000000\nT.b 0x40000004 32 rw 0x00000000\nT.a_ 0x40000008 32 rw 0x00000000\n",
    ),
    // The array stands where its first member stood in the file, and begins with the one of the least offset.
    (
        "an_array",
        C1_D_C0,
        b"T:\n  _array:\n    C?: {}\n",
        b"T.c[0] 0x40000000 32 rw 0x00000000\nT.c[1] 0x40000004 32 rw 0x00000000\nT.d 0x40000008 32 rw 0x00000000\n",
    ),
    (
        "an_array_of_one",
        A_AND_B,
        b"T:\n  _array:\n    B:\n      name: CH[%s]\n",
        b"T.a 0x40000000 32 rw 0x00000000\nT.ch[0] 0x40000004 32 rw 0x00000000\n",
    ),
    // In one mapping what is deleted goes first, wherever it stands.
    (
        "the_order_of_commands",
        A_AND_B,
        b"T:\n  _add:\n    A:\n      addressOffset: 12\n  _delete:\n    - A\n",
        b"T.b 0x40000004 32 rw 0x00000000\nT.a 0x4000000c 32 rw 0x00000000\n",
    ),
];

#[test]
fn mended(rt: HostRuntime) -> Result<(), Fail> {
    for &(row, registers, patch, output) in MENDED {
        assert!(rt;
            lists_registers(rt.alloc(), registers, patch, &listing(output))?,
            "{row}"
        );
    }
    Ok(())
}

// Registers of `T`, and a patch that is refused, each refusal once.
const REFUSED: &[(&[u8], &[u8], &str)] = &[
    (A_AND_B, b"a: &b c\n", "patch line 1: syntax"),
    (A_AND_B, b"T:\nT:\n", "patch line 2: key used twice"),
    (
        A_AND_B,
        b"_include: x.yaml\n",
        "patch line 1: unknown command",
    ),
    (
        A_AND_B,
        b"T:\n  _modify:\n    A:\n      colour: red\n",
        "patch line 4: unknown key",
    ),
    (
        A_AND_B,
        b"T:\n  _modify:\n    A:\n      size: wide\n",
        "patch line 4: bad value",
    ),
    (A_AND_B, b"T[:\n", "patch line 1: bad pattern"),
    (A_AND_B, b"_delete: I2C*\n", "patch line 1: nothing matches"),
    (
        A_AND_B,
        b"T:\n  _modify:\n    A: {name: B}\n",
        "patch line 3: B is there already",
    ),
    (
        A_AND_B,
        b"T:\n  _copy:\n    C:\n      from: D\n",
        "patch line 3: D to copy is missing",
    ),
    (
        A_AND_B,
        b"_add:\n  U: {}\n",
        "patch line 2: missing baseAddress",
    ),
    (
        A_AND_B,
        b"T:\n  _add:\n    C: {}\n",
        "patch line 3: missing addressOffset",
    ),
    (
        A_AND_B,
        b"T:\n  A:\n    _add:\n      F: {}\n",
        "patch line 4: missing bitOffset",
    ),
    (
        b"<register><name>A_X</name><addressOffset>0</addressOffset></register><register><name>X</name><addressOffset>4</addressOffset></register>",
        b"T:\n  _strip: A_\n",
        "patch line 2: stripping makes A_X and X alike",
    ),
    (
        b"<register><name>C0</name><addressOffset>0</addressOffset></register><register><name>C1</name><addressOffset>4</addressOffset></register><register><name>C2</name><addressOffset>12</addressOffset></register>",
        b"T:\n  _array:\n    C*: {}\n",
        "patch line 3: uneven step from C1 to C2",
    ),
    (
        b"<register><name>C0</name><addressOffset>8</addressOffset></register><register><name>C1</name><addressOffset>8</addressOffset></register>",
        b"T:\n  _array:\n    C*: {}\n",
        "patch line 3: uneven step from C0 to C1",
    ),
    (
        b"<register><name>C0</name><addressOffset>0</addressOffset></register><register><name>C1</name><addressOffset>4</addressOffset><size>16</size></register>",
        b"T:\n  _array:\n    C*: {}\n",
        "patch line 3: C0 and C1 are unlike",
    ),
    (
        b"<register><name>C0</name><addressOffset>0</addressOffset><fields><field><name>F</name><bitOffset>0</bitOffset></field></fields></register><register><name>C1</name><addressOffset>4</addressOffset></register>",
        b"T:\n  _array:\n    C*: {}\n",
        "patch line 3: C0 and C1 are unlike",
    ),
    // A width that isn't stated is no key, though it is 1 in the end.
    (
        b"<register><name>A</name><addressOffset>0</addressOffset><fields><field><name>F0</name><bitOffset>0</bitOffset><bitWidth>1</bitWidth></field><field><name>F1</name><bitOffset>1</bitOffset></field></fields></register>",
        b"T:\n  A:\n    _array:\n      F?: {}\n",
        "patch line 4: F0 and F1 are unlike",
    ),
    // A field has no children for a patch.
    (
        F_AND_G,
        b"T:\n  A:\n    F:\n      _delete: X\n",
        "patch line 4: nothing matches",
    ),
    // What the patch is refused for counts before what the description as a whole is.
    (
        b"<register><name>A</name><addressOffset>2</addressOffset></register>",
        b"U:\n",
        "patch line 1: nothing matches",
    ),
];

#[test]
fn refused(rt: HostRuntime) -> Result<(), Fail> {
    for &(registers, patch, fault) in REFUSED {
        assert!(rt;
            lists_registers(rt.alloc(), registers, patch, &refusal(7, fault))?,
            "{fault}"
        );
    }
    Ok(())
}

/// Keys that nest this deep, each on its line.
fn nested(alloc: Global, depth: usize) -> Result<String, NoMemory> {
    let mut text = String::new(alloc);
    for level in 0..depth {
        for _ in 0..level {
            text.push_str(" ")?;
        }
        text.push_str("T:\n")?;
    }
    Ok(text)
}

#[test]
fn sixty_five_mappings(rt: HostRuntime) -> Result<(), Fail> {
    let patch = nested(rt.alloc(), 65)?;
    let wanted = refusal(7, "patch line 64: nesting passes 64");
    assert!(rt; lists_registers(rt.alloc(), A_AND_B, patch.as_bytes(), &wanted)?);
    Ok(())
}

/// Five peripherals, each with one register.
const FIVE: &[u8] =
    b"<device><name>D</name><peripherals><peripheral><name>TIM1</name><baseAddress>0x40000000</baseAddress><registers><register><name>R</name><addressOffset>0</addressOffset></register></registers></peripheral><peripheral><name>TIM10</name><baseAddress>0x40001000</baseAddress><registers><register><name>R</name><addressOffset>0</addressOffset></register></registers></peripheral><peripheral><name>TIM4</name><baseAddress>0x40002000</baseAddress><registers><register><name>R</name><addressOffset>0</addressOffset></register></registers></peripheral><peripheral><name>USART1</name><baseAddress>0x40003000</baseAddress><registers><register><name>R</name><addressOffset>0</addressOffset></register></registers></peripheral><peripheral><name>USART10</name><baseAddress>0x40004000</baseAddress><registers><register><name>R</name><addressOffset>0</addressOffset></register></registers></peripheral></peripherals></device>";

/// Two registers at one address.
const AT_ONE_ADDRESS: &[u8] =
    b"<register><name>A</name><addressOffset>4</addressOffset></register><register><name>B</name><addressOffset>4</addressOffset></register>";

#[test]
fn delete_by_pattern(rt: HostRuntime) -> Result<(), Fail> {
    let left = b"TIM4.r 0x40002000 32 rw 0x00000000\nUSART10.r 0x40004000 32 rw 0x00000000\n";
    assert!(rt;
        lists(
            rt.alloc(),
            FIVE,
            b"_delete: \"TIM[1-3]*,USART?\"\n",
            &listing(left)
        )?
    );
    Ok(())
}

// Words over a patched description, and what they print: overlaps are those of what the patch leaves.
const COMMANDS: &[(&[&str], u8, &[u8], &str)] = &[
    (
        &["list", "--strict", "--patch=p.yaml", "x.svd"],
        0,
        b"T.b 0x40000004 32 rw 0x00000000\n",
        "",
    ),
    (
        &["list", "--strict", "x.svd"],
        8,
        b"",
        "T.A and T.B overlap",
    ),
    (
        &["run", "x.svd", "s", "--strict", "--patch", "p.yaml"],
        0,
        b"read 0x40000004 32 0x00000000\n",
        "",
    ),
    (
        &["generate", "x.svd", "--patch", "q.yaml"],
        3,
        b"",
        "cannot read q.yaml",
    ),
    (
        &["generate", "x.svd", "--patch", "s"],
        7,
        b"",
        "patch line 1: syntax",
    ),
];

#[test]
fn commands_with_a_patch(rt: HostRuntime) -> Result<(), Fail> {
    let description = described(rt.alloc(), AT_ONE_ADDRESS)?;
    for (place, &(words, status, output, fault)) in COMMANDS.iter().enumerate() {
        let wanted = Wanted {
            status,
            output,
            fault,
        };
        assert!(rt;
            patches(
                rt.alloc(),
                words,
                description.as_slice(),
                b"T:\n  _delete: A\n",
                b"let b = T.b().read();",
                &wanted
            )?,
            "{place}"
        );
    }
    Ok(())
}

/// A vendor's description of two timers.
const VENDOR: &[u8] = br#"<?xml version="1.0" encoding="utf-8" standalone="no"?>
<!-- Licensed under the Apache License, Version 2.0 -->
<device schemaVersion="1.3" xmlns:xs="http://www.w3.org/2001/XMLSchema-instance" xs:noNamespaceSchemaLocation="CMSIS-SVD.xsd">
  <vendor>Example</vendor><name>EX32F1</name><version>1.2</version>
  <description>Timers &amp; more</description>
  <cpu><name>CM4</name><revision>r0p1</revision><endian>little</endian></cpu>
  <addressUnitBits>8</addressUnitBits><width>32</width>
  <size>0x20</size><resetValue>0x0</resetValue><resetMask>0xFFFFFFFF</resetMask>
  <peripherals>
    <peripheral><name>TIM2</name><groupName>TIM</groupName><baseAddress>0x40000000</baseAddress>
      <addressBlock><offset>0x0</offset><size>0x400</size><usage>registers</usage></addressBlock>
      <interrupt><name>TIM2</name><value>28</value></interrupt>
      <registers>
        <register><name>TIM_CR1</name><displayName>CR1</displayName><addressOffset>0x0</addressOffset>
          <size>16</size><access>read-write</access><fields>
            <field><name>CEN</name><bitOffset>0</bitOffset><bitWidth>1</bitWidth><enumeratedValues>
              <enumeratedValue><name>Disabled</name><value>0</value></enumeratedValue>
              <enumeratedValue><name>Enabled</name><value>1</value></enumeratedValue>
            </enumeratedValues></field>
            <field><name>CKD</name><bitRange>[9:8]</bitRange></field></fields></register>
        <register><name>TIM_SR</name><addressOffset>0x10</addressOffset>
          <fields><field><name>UIF</name><lsb>0</lsb><msb>0</msb></field></fields></register>
        <register><name>TIM_CNT</name><addressOffset>0x24</addressOffset></register>
        <register><name>TIM_CCR1</name><addressOffset>0x34</addressOffset></register>
        <register><name>TIM_CCR2</name><addressOffset>0x38</addressOffset></register>
        <register><name>TIM_OLD</name><addressOffset>0x50</addressOffset></register>
      </registers></peripheral>
    <peripheral derivedFrom="TIM2"><name>TIM3</name><baseAddress>0x40000400</baseAddress></peripheral>
  </peripherals>
</device>
"#;

/// A patch to it: a register that is gone, one that was forgotten, one that clears by zeros, names without their
/// prefix, and an array.
const VENDOR_PATCH: &[u8] = br#"_svd: ex32f1.svd

TIM2:
  _delete:
    - TIM_OLD
  _copy:
    TIM_PSC:
      from: TIM_CNT
      addressOffset: 0x28
  _modify:
    TIM_SR:
      modifiedWriteValues: zeroToClear
  _add:
    TIM_EGR:
      addressOffset: 0x14
      access: write-only
      fields:
        UG:
          bitOffset: 0
          bitWidth: 1
  _strip: TIM_
  _array:
    CCR*: {}
"#;

const VENDOR_SCRIPT: &[u8] = br#"TIM2.cr1().modify(|_, w| w.cen().enabled().ckd().bits(2));
let s = TIM3.sr().read();
say(s.uif().bit_is_set());
TIM3.sr().write(|w| w.uif().clear_bit());
TIM2.ccr(1).write(|w| w.bits(0x1f4));
"#;

/// The registers of both, as they are listed.
const VENDOR_LISTING: &[u8] = br#"TIM2.cr1 0x40000000 16 rw 0x0000
  cen [0:0] rw modify
  ckd [9:8] rw modify
TIM2.sr 0x40000010 32 rw 0x00000000
  uif [0:0] rw zeroToClear
TIM2.cnt 0x40000024 32 rw 0x00000000
TIM2.ccr[0] 0x40000034 32 rw 0x00000000
TIM2.ccr[1] 0x40000038 32 rw 0x00000000
TIM2.psc 0x40000028 32 rw 0x00000000
TIM2.egr 0x40000014 32 wo 0x00000000
  ug [0:0] wo modify
TIM3.cr1 0x40000400 16 rw 0x0000
  cen [0:0] rw modify
  ckd [9:8] rw modify
TIM3.sr 0x40000410 32 rw 0x00000000
  uif [0:0] rw zeroToClear
TIM3.cnt 0x40000424 32 rw 0x00000000
TIM3.ccr[0] 0x40000434 32 rw 0x00000000
TIM3.ccr[1] 0x40000438 32 rw 0x00000000
TIM3.psc 0x40000428 32 rw 0x00000000
TIM3.egr 0x40000414 32 wo 0x00000000
  ug [0:0] wo modify
"#;

const VENDOR_EVENTS: &[u8] = br#"read 0x40000000 16 0x0000
write 0x40000000 16 0x0201
read 0x40000410 32 0x00000000
say false
write 0x40000410 32 0x00000000
write 0x40000038 32 0x000001f4
"#;

// Words over the vendor's files, and what they print.
const VENDOR_COMMANDS: &[(&[&str], &[u8])] = &[
    (&["list", "x.svd", "--patch", "p.yaml"], VENDOR_LISTING),
    (&["run", "x.svd", "s", "--patch", "p.yaml"], VENDOR_EVENTS),
];

#[test]
fn vendor_file(rt: HostRuntime) -> Result<(), Fail> {
    for (place, &(words, output)) in VENDOR_COMMANDS.iter().enumerate() {
        assert!(rt;
            patches(
                rt.alloc(),
                words,
                VENDOR,
                VENDOR_PATCH,
                VENDOR_SCRIPT,
                &listing(output)
            )?,
            "{place}"
        );
    }
    Ok(())
}
