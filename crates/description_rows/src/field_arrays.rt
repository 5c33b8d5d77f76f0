use crate::checks::{joined, tells};
use overlap_check::Policy;
use pac_io::SinkFault;
use std::alloc::Global;
use std::test::Fail;

// The fields of a register `R` of 32 bits, and the line of the first fault: where overlaps aren't asked for, and where
// they are.
const FIELDS: &[(&str, &[u8], &[u8], &[u8])] = &[
    (
        "four fields, each in a byte of its own",
        b"<field><name>LV[%s]</name><dim>4</dim><dimIncrement>8</dimIncrement><bitOffset>0</bitOffset><bitWidth>2</bitWidth></field>",
        b"",
        b"",
    ),
    (
        "the last of them ends at the register's last bit",
        b"<field><name>LV[%s]</name><dim>4</dim><dimIncrement>8</dimIncrement><bitOffset>6</bitOffset><bitWidth>2</bitWidth></field>",
        b"",
        b"",
    ),
    (
        "the last of them ends one bit behind it",
        b"<field><name>LV[%s]</name><dim>4</dim><dimIncrement>8</dimIncrement><bitOffset>7</bitOffset><bitWidth>2</bitWidth></field>",
        b"pac: T.R.LV[%s]: field passes the register\n",
        b"pac: T.R.LV[%s]: field passes the register\n",
    ),
    (
        "the last two of them stand behind it",
        b"<field><name>LV[%s]</name><dim>4</dim><dimIncrement>16</dimIncrement><bitOffset>0</bitOffset><bitWidth>2</bitWidth></field>",
        b"pac: T.R.LV[%s]: field passes the register\n",
        b"pac: T.R.LV[%s]: field passes the register\n",
    ),
    (
        "each shares a bit with the next",
        b"<field><name>LV[%s]</name><dim>4</dim><dimIncrement>1</dimIncrement><bitOffset>0</bitOffset><bitWidth>2</bitWidth></field>",
        b"",
        b"pac: T.R.LV[0] and T.R.LV[1] overlap\n",
    ),
    (
        "one of them shares a bit with another field",
        b"<field><name>LV[%s]</name><dim>4</dim><dimIncrement>8</dimIncrement><bitOffset>0</bitOffset><bitWidth>2</bitWidth></field><field><name>EN</name><bitOffset>17</bitOffset></field>",
        b"",
        b"pac: T.R.LV[2] and T.R.EN overlap\n",
    ),
    (
        "a list of fields, whose members stand by their names",
        b"<field><name>F%s</name><dim>3</dim><dimIncrement>1</dimIncrement><bitOffset>0</bitOffset><bitWidth>2</bitWidth></field>",
        b"",
        b"pac: T.R.F0 and T.R.F1 overlap\n",
    ),
    (
        "a list of fields, of which the last passes the register",
        b"<field><name>F%s</name><dim>3</dim><dimIncrement>16</dimIncrement><bitOffset>0</bitOffset><bitWidth>2</bitWidth></field>",
        b"pac: T.R.F2: field passes the register\n",
        b"pac: T.R.F2: field passes the register\n",
    ),
];

const REGISTER: &[u8] = b"<register><name>R</name><addressOffset>0</addressOffset><fields>";

const ENDS: &[u8] = b"</fields></register>";

/// Whether a register `R` with these fields has the line of the first fault, loosely and strictly.
fn tells_of_fields(
    alloc: Global,
    fields: &[u8],
    loose: &[u8],
    strict: &[u8],
) -> Result<bool, SinkFault> {
    let register = joined(alloc, &[REGISTER, fields, ENDS])?;
    Ok(
        tells(alloc, register.as_slice(), Policy::Loose, loose)?
            && tells(alloc, register.as_slice(), Policy::Strict, strict)?,
    )
}

#[test]
fn each_member_of_a_field_array_is_checked(rt: HostRuntime) -> Result<(), Fail> {
    for &(row, fields, loose, strict) in FIELDS {
        assert!(rt;
            tells_of_fields(rt.alloc(), fields, loose, strict)?,
            "{row}"
        );
    }
    Ok(())
}

// How many members the register array `R[%s]` has, the fields and the register behind it, and the line of the first
// fault.
const COUNTS: &[(&str, &[u8], &[u8], &[u8], &[u8])] = &[
    (
        "8 times 65,536 fields",
        b"8",
        b"<field><name>F[%s]</name><dim>65536</dim><bitOffset>0</bitOffset></field>",
        b"",
        b"",
    ),
    (
        "one more field",
        b"8",
        b"<field><name>F[%s]</name><dim>65536</dim><bitOffset>0</bitOffset></field>",
        b"<register><name>S</name><addressOffset>64</addressOffset><fields><field><name>F</name><bitOffset>0</bitOffset></field></fields></register>",
        b"pac: too many fields: 524289\n",
    ),
    (
        "twice 65,536 fields of 8 values",
        b"2",
        b"<field><name>F[%s]</name><dim>65536</dim><bitOffset>0</bitOffset><enumeratedValues><enumeratedValue><name>A</name><value>0</value></enumeratedValue><enumeratedValue><name>B</name><value>1</value></enumeratedValue><enumeratedValue><name>C</name><value>2</value></enumeratedValue><enumeratedValue><name>D</name><value>3</value></enumeratedValue><enumeratedValue><name>E</name><value>4</value></enumeratedValue><enumeratedValue><name>F</name><value>5</value></enumeratedValue><enumeratedValue><name>G</name><value>6</value></enumeratedValue><enumeratedValue><name>H</name><value>7</value></enumeratedValue></enumeratedValues></field>",
        b"",
        b"",
    ),
    (
        "one more value",
        b"2",
        b"<field><name>F[%s]</name><dim>65536</dim><bitOffset>0</bitOffset><enumeratedValues><enumeratedValue><name>A</name><value>0</value></enumeratedValue><enumeratedValue><name>B</name><value>1</value></enumeratedValue><enumeratedValue><name>C</name><value>2</value></enumeratedValue><enumeratedValue><name>D</name><value>3</value></enumeratedValue><enumeratedValue><name>E</name><value>4</value></enumeratedValue><enumeratedValue><name>F</name><value>5</value></enumeratedValue><enumeratedValue><name>G</name><value>6</value></enumeratedValue><enumeratedValue><name>H</name><value>7</value></enumeratedValue></enumeratedValues></field>",
        b"<register><name>S</name><addressOffset>64</addressOffset><fields><field><name>F</name><bitOffset>0</bitOffset><enumeratedValues><enumeratedValue><name>A</name><value>0</value></enumeratedValue></enumeratedValues></field></fields></register>",
        b"pac: too many values: 1048577\n",
    ),
    (
        "a list of fields, which counts with every member of its register",
        b"16",
        b"<field><name>F%s</name><dim>65536</dim><bitOffset>0</bitOffset></field>",
        b"",
        b"pac: too many fields: 1048576\n",
    ),
];

const ARRAY: &[u8] = b"<register><name>R[%s]</name><dim>";

const PLACED: &[u8] =
    b"</dim><dimIncrement>4</dimIncrement><addressOffset>0</addressOffset><fields>";

/// Whether so many registers `R[%s]` with these fields, and another register behind them, have this line of the first
/// fault.
fn tells_of_array(
    alloc: Global,
    count: &[u8],
    fields: &[u8],
    behind: &[u8],
    wanted: &[u8],
) -> Result<bool, SinkFault> {
    let registers = joined(alloc, &[ARRAY, count, PLACED, fields, ENDS, behind])?;
    tells(alloc, registers.as_slice(), Policy::Loose, wanted)
}

#[test]
fn fields_and_values_are_counted_with_every_member(rt: HostRuntime) -> Result<(), Fail> {
    for &(row, count, fields, behind, wanted) in COUNTS {
        assert!(rt;
            tells_of_array(rt.alloc(), count, fields, behind, wanted)?,
            "{row}"
        );
    }
    Ok(())
}
