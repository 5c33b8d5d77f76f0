use crate::harness::{lists, lists_registers, refusal};
use std::test::Fail;

// Registers of `T` that are refused as a whole.
const REFUSED: &[(&str, &[u8], &str)] = &[
    (
        "misaligned",
        b"<register><name>A</name><addressOffset>2</addressOffset></register>",
        "T.A: address is not a multiple of the width",
    ),
    (
        "check_faults",
        b"<register><name>R</name><addressOffset>0</addressOffset><fields><field><name>F</name><bitOffset>30</bitOffset><bitWidth>3</bitWidth></field></fields></register>",
        "T.R.F: field passes the register",
    ),
    (
        "check_faults",
        b"<register><name>R</name><addressOffset>0</addressOffset><fields><field><name>A</name><bitOffset>0</bitOffset><bitWidth>1</bitWidth></field><field><name>a</name><bitOffset>1</bitOffset><bitWidth>1</bitWidth></field></fields></register>",
        "T.R.A and T.R.a have one accessor name",
    ),
    (
        "check_faults",
        b"<register><name>R</name><addressOffset>0</addressOffset><size>0</size></register>",
        "T.R: size is not 1 to 64",
    ),
    (
        "address_past_64_bits",
        b"<register><name>R</name><addressOffset>0xffffffffbffffffe</addressOffset></register>",
        "T.R: address passes 64 bits",
    ),
    (
        "list_by_letters",
        b"<register><name>CH%s</name><addressOffset>0</addressOffset><dim>3</dim><dimIncrement>4</dimIncrement><dimIndex>0-3</dimIndex></register>",
        "T.CH%s: dim is 3 and dimIndex gives 4",
    ),
    (
        "list_by_letters",
        b"<register><name>CH%s</name><addressOffset>0</addressOffset><dim>0</dim><dimIncrement>4</dimIncrement><dimIndex>A-C</dimIndex></register>",
        "T.CH%s: dim is 0",
    ),
];

#[test]
fn check_faults(rt: HostRuntime) -> Result<(), Fail> {
    for &(row, registers, fault) in REFUSED {
        assert!(rt;
            lists_registers(rt.alloc(), registers, &refusal(8, fault))?,
            "{row}: {fault}"
        );
    }
    Ok(())
}

// Descriptions whose text is refused.
const DESCRIPTION_FAULTS: &[(&[u8], &str)] = &[
    (b"", "description: syntax at byte 0"),
    (
        b"<device><name>D</name></device>",
        "description: missing peripherals in the element at bytes 1 to 7",
    ),
    (
        b"<device><name>D</name><peripherals/><colour>1</colour></device>",
        "description: unknown element at bytes 37 to 43",
    ),
    (
        b"<device><name>D</name><size>4k</size><peripherals/></device>",
        "description: bad number at bytes 28 to 30",
    ),
    (
        b"<device><name>D</name><size>8</size><size>8</size><peripherals/></device>",
        "description: second element at bytes 37 to 41",
    ),
    (
        b"<device><name>D</name><peripherals><peripheral><name>T</name><baseAddress>0</baseAddress></peripheral><peripheral><name>T</name><baseAddress>4</baseAddress></peripheral></peripherals></device>",
        "description: name used twice at bytes 120 to 121",
    ),
    (
        b"<device><name>D</name><access>read</access><peripherals/></device>",
        "description: bad word at bytes 30 to 34",
    ),
    (
        b"<device><name>D</name><peripherals>text</peripherals></device>",
        "description: syntax at byte 35",
    ),
    (
        b"<device><name>D</name><peripherals/><peripherals/></device>",
        "description: second element at bytes 37 to 48",
    ),
    (
        b"<device><name>D</name><peripherals><peripheral><name>T</name><baseAddress>4k</baseAddress></peripheral></peripherals></device>",
        "description: bad number at bytes 74 to 76",
    ),
    (
        b"<device><name>D</name><peripherals><peripheral><name>A B</name><baseAddress>0</baseAddress></peripheral></peripherals></device>",
        "description: bad name at bytes 53 to 56",
    ),
    (
        b"<device><name>D</name><peripherals><peripheral><name>T</name><baseAddress>0</baseAddress><dimIndex>3-1</dimIndex></peripheral></peripherals></device>",
        "description: bad index at bytes 99 to 102",
    ),
    (
        b"<device><name>D</name><peripherals><peripheral><name>T</name><baseAddress>0</baseAddress><registers><register><name>R</name><addressOffset>0</addressOffset><fields><field><name>F</name><lsb>4</lsb><msb>3</msb></field></fields></register></registers></peripheral></peripherals></device>",
        "description: bad place at bytes 202 to 203",
    ),
    (
        b"<device><name>D</name><peripherals><peripheral><name>T</name><baseAddress>0</baseAddress><registers><cluster><name>R</name><addressOffset>0</addressOffset></cluster><register><name> R</name><addressOffset>4</addressOffset></register></registers></peripheral></peripherals></device>",
        "description: name used twice at bytes 182 to 183",
    ),
    // an unknown element, once in each container
    (
        b"<device><name>D</name><colour/><peripherals></peripherals></device>",
        "description: unknown element at bytes 23 to 29",
    ),
    (
        b"<device><name>D</name><peripherals><colour/></peripherals></device>",
        "description: unknown element at bytes 36 to 42",
    ),
    (
        b"<device><name>D</name><peripherals><peripheral><name>P</name><baseAddress>0</baseAddress><colour/></peripheral></peripherals></device>",
        "description: unknown element at bytes 90 to 96",
    ),
    (
        b"<device><name>D</name><peripherals><peripheral><name>P</name><baseAddress>0</baseAddress><registers><colour/></registers></peripheral></peripherals></device>",
        "description: unknown element at bytes 101 to 107",
    ),
    (
        b"<device><name>D</name><peripherals><peripheral><name>P</name><baseAddress>0</baseAddress><registers><cluster><name>C</name><addressOffset>0</addressOffset><colour/></cluster></registers></peripheral></peripherals></device>",
        "description: unknown element at bytes 156 to 162",
    ),
    (
        b"<device><name>D</name><peripherals><peripheral><name>P</name><baseAddress>0</baseAddress><registers><register><name>R</name><addressOffset>0</addressOffset><colour/></register></registers></peripheral></peripherals></device>",
        "description: unknown element at bytes 157 to 163",
    ),
    (
        b"<device><name>D</name><peripherals><peripheral><name>P</name><baseAddress>0</baseAddress><registers><register><name>R</name><addressOffset>0</addressOffset><fields><colour/></fields></register></registers></peripheral></peripherals></device>",
        "description: unknown element at bytes 165 to 171",
    ),
    (
        b"<device><name>D</name><peripherals><peripheral><name>P</name><baseAddress>0</baseAddress><registers><register><name>R</name><addressOffset>0</addressOffset><fields><field><name>F</name><bitOffset>0</bitOffset><colour/></field></fields></register></registers></peripheral></peripherals></device>",
        "description: unknown element at bytes 210 to 216",
    ),
    (
        b"<device><name>D</name><peripherals><peripheral><name>P</name><baseAddress>0</baseAddress><registers><register><name>R</name><addressOffset>0</addressOffset><fields><field><name>F</name><bitOffset>0</bitOffset><enumeratedValues><colour/></enumeratedValues></field></fields></register></registers></peripheral></peripherals></device>",
        "description: unknown element at bytes 228 to 234",
    ),
    (
        b"<device><name>D</name><peripherals><peripheral><name>P</name><baseAddress>0</baseAddress><registers><register><name>R</name><addressOffset>0</addressOffset><fields><field><name>F</name><bitOffset>0</bitOffset><enumeratedValues><enumeratedValue><name>V</name><value>0</value><colour/></enumeratedValue></enumeratedValues></field></fields></register></registers></peripheral></peripherals></device>",
        "description: unknown element at bytes 275 to 281",
    ),
];

#[test]
fn description_faults(rt: HostRuntime) -> Result<(), Fail> {
    for &(description, fault) in DESCRIPTION_FAULTS {
        assert!(rt;
            lists(rt.alloc(), description, &refusal(6, fault))?,
            "{fault}"
        );
    }
    Ok(())
}
