use svd_values::{Place, bit_range, number, value_bits};

// Texts, with the number that each stands for.
const NUMBERS: &[(&str, Option<u64>)] = &[
    ("0", Some(0)),
    ("0042", Some(42)),
    ("+5", Some(5)),
    ("18446744073709551615", Some(18446744073709551615)),
    ("18446744073709551616", None),
    ("+", None),
    ("", None),
    ("-1", None),
    ("4k", None),
    (" 1", None),
    ("1.0", None),
    ("0x40000000", Some(1073741824)),
    ("0XaBcDeF", Some(11259375)),
    ("+0x10", Some(16)),
    ("0xffffffffffffffff", Some(18446744073709551615)),
    ("0x10000000000000000", None),
    ("0x", None),
    ("x10", None),
    ("0x1g", None),
    ("ff", None),
    ("#101", Some(5)),
    ("0b11", Some(3)),
    ("0B10", Some(2)),
    ("+#1", Some(1)),
    ("#x1", None),
    ("0b", None),
    ("#", None),
    ("#102", None),
];

// Texts of enumerated values, in which a bit may be left open.
const VALUES: &[(&str, Option<u64>)] = &[
    ("#x1", Some(1)),
    ("0bX1x0", Some(4)),
    ("0x1f", Some(31)),
    ("x1", None),
];

#[test]
fn numbers_in_three_bases(rt: HostRuntime) {
    for &(text, value) in NUMBERS {
        assert!(rt; number(text.as_bytes()) == value, "{text}");
    }
    for &(text, value) in VALUES {
        assert!(rt; value_bits(text.as_bytes()) == value, "{text}");
    }
}

// Texts of `bitRange`, with offset and width.
const RANGES: &[(&str, Option<(u128, u128)>)] = &[
    ("[7:4]", Some((4, 4))),
    ("[3:3]", Some((3, 1))),
    ("[18446744073709551615:0]", Some((0, 18446744073709551616))),
    ("[3:4]", None),
    ("[7:4", None),
    ("[7:4]]", None),
    ("[0x7:4]", None),
    ("[18446744073709551616:0]", None),
];

#[test]
fn ranges_of_bits(rt: HostRuntime) {
    for &(text, wanted) in RANGES {
        let place = wanted.map(|(offset, width)| Place {
            offset: Some(offset),
            width: Some(width),
        });
        assert!(rt; bit_range(text.as_bytes()) == place, "{text}");
    }
}
