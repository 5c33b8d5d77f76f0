use crate::harness::{ONE_REGISTER, listing, lists, lists_registers};
use std::test::Fail;

const TWO_PERIPHERALS: &[u8] = b"\n<device>\t<name>Timers 2</name>\r\n <peripherals>
  <peripheral><name>TIM2</name><baseAddress>1073741824</baseAddress>
    <registers> <register><name>CR_1</name><addressOffset>0x0</addressOffset></register>
      <register><name>SR</name><addressOffset>16</addressOffset></register></registers></peripheral>
  <peripheral><name>TIM3</name><baseAddress>0xffffFFFFfffffff0</baseAddress><registers>
      <register><name>CR_1</name><addressOffset>0xC</addressOffset></register></registers>
  </peripheral><peripheral><name>NONE</name><baseAddress>0</baseAddress><registers> </registers></peripheral></peripherals> </device>\n";

// Descriptions, and the lines that list each.
const DESCRIPTIONS: &[(&str, &[u8], &[u8])] = &[
    (
        "plain_register",
        ONE_REGISTER,
        b"T.cr 0x40000000 32 rw 0x00000000\n",
    ),
    (
        "plain_registers_of_two_peripherals",
        TWO_PERIPHERALS,
        b"TIM2.cr_1 0x40000000 32 rw 0x00000000\nTIM2.sr 0x40000010 32 rw 0x00000000\nTIM3.cr_1 0xfffffffffffffffc 32 rw 0x00000000\n",
    ),
    (
        "no_peripherals",
        b"<device><name>D</name><peripherals/></device>",
        b"",
    ),
    (
        "a_property_from_each_level",
        b"<device><name>D</name><size>16</size><peripherals><peripheral><name>T</name><baseAddress>0</baseAddress><access>writeOnce</access><registers><cluster><name>C</name><addressOffset>0</addressOffset><resetValue>0x12345678</resetValue><register><name>R</name><addressOffset>0</addressOffset><resetMask>0xff0f</resetMask></register></cluster></registers></peripheral></peripherals></device>",
        b"T.c.r 0x00000000 16 wo 0x5608\n",
    ),
    (
        "the_nearest_of_each_property",
        b"<device><name>D</name><size>64</size><access>read-only</access><resetValue>1</resetValue><resetMask>1</resetMask><peripherals><peripheral><name>T</name><baseAddress>0</baseAddress><registers><cluster><name>C</name><addressOffset>0</addressOffset><size>7</size><access>read-writeOnce</access><resetValue>0x1ff</resetValue><resetMask>0xfff0</resetMask><register><name>R</name><addressOffset>0</addressOffset></register></cluster></registers></peripheral></peripherals></device>",
        b"T.c.r 0x00000000 8 rw 0xf0\n",
    ),
];

#[test]
fn listed_descriptions(rt: HostRuntime) -> Result<(), Fail> {
    for &(row, description, output) in DESCRIPTIONS {
        assert!(rt; lists(rt.alloc(), description, &listing(output))?, "{row}");
    }
    Ok(())
}

// Registers of `T`, and the lines that list them.
const LISTED: &[(&str, &[u8], &[u8])] = &[
    (
        "whole_64_bit_word",
        b"<register><name>L</name><addressOffset>0</addressOffset><size>64</size><fields><field><name>V</name><bitOffset>0</bitOffset><bitWidth>64</bitWidth></field></fields></register>",
        b"T.l 0x40000000 64 rw 0x0000000000000000\n  v [63:0] rw modify\n",
    ),
    (
        "reset_cut_to_width",
        b"<register><name>B</name><addressOffset>0</addressOffset><size>8</size><resetValue>0x1a5</resetValue><resetMask>0xffffffff</resetMask></register>",
        b"T.b 0x40000000 8 rw 0xa5\n",
    ),
    (
        "keyword_names",
        b"<register><name>type</name><addressOffset>0</addressOffset></register><register><name>READ</name><addressOffset>4</addressOffset></register>",
        b"T.type_ 0x40000000 32 rw 0x00000000\nT.read_ 0x40000004 32 rw 0x00000000\n",
    ),
    (
        "reserved_fields_left_out",
        b"<register><name>R</name><addressOffset>0</addressOffset><fields><field><name>Reserved</name><bitOffset>1</bitOffset><bitWidth>1</bitWidth></field><field><name>Reserved</name><bitOffset>2</bitOffset><bitWidth>1</bitWidth></field><field><name>A</name><bitOffset>0</bitOffset><bitWidth>1</bitWidth></field></fields></register>",
        b"T.r 0x40000000 32 rw 0x00000000\n  a [0:0] rw modify\n",
    ),
    (
        "forms_of_a_place",
        b"<register><name>S</name><addressOffset>4</addressOffset><fields><field><name>E</name><lsb>3</lsb><msb>5</msb><access>read-only</access></field><field><name>P</name><bitWidth>0</bitWidth><lsb>9</lsb><bitRange>[11:10]</bitRange><access>read-only</access></field><field><name>O</name><bitRange>[31:31]</bitRange><access>read-only</access><modifiedWriteValues>oneToClear</modifiedWriteValues></field></fields></register>",
        b"T.s 0x40000004 32 ro 0x00000000\n  e [5:3] ro modify\n  p [11:10] ro modify\n  o [31:31] ro oneToClear\n",
    ),
    (
        "list_of_registers",
        b"<register><name>CH%s</name><addressOffset>0</addressOffset><dim>2</dim><dimIncrement>4</dimIncrement></register>",
        b"T.ch0 0x40000000 32 rw 0x00000000\nT.ch1 0x40000004 32 rw 0x00000000\n",
    ),
    (
        "list_by_letters",
        b"<register><name>CH%s</name><addressOffset>0</addressOffset><dim>3</dim><dimIncrement>4</dimIncrement><dimIndex>A-C</dimIndex></register>",
        b"T.cha 0x40000000 32 rw 0x00000000\nT.chb 0x40000004 32 rw 0x00000000\nT.chc 0x40000008 32 rw 0x00000000\n",
    ),
    (
        "register_array",
        b"<register><name>CH[%s]</name><addressOffset>0</addressOffset><dim>4</dim><dimIncrement>16</dimIncrement></register>",
        b"T.ch[0] 0x40000000 32 rw 0x00000000\nT.ch[1] 0x40000010 32 rw 0x00000000\nT.ch[2] 0x40000020 32 rw 0x00000000\nT.ch[3] 0x40000030 32 rw 0x00000000\n",
    ),
    (
        "list_of_fields",
        b"<register><name>R</name><addressOffset>0</addressOffset><fields><field><name>F%s</name><bitOffset>1</bitOffset><bitWidth>1</bitWidth><dim>3</dim><dimIncrement>2</dimIncrement></field></fields></register>",
        b"T.r 0x40000000 32 rw 0x00000000\n  f0 [1:1] rw modify\n  f1 [3:3] rw modify\n  f2 [5:5] rw modify\n",
    ),
    (
        "array_of_fields",
        b"<register><name>R</name><addressOffset>0</addressOffset><fields><field><name>LV[%s]</name><dim>4</dim><dimIncrement>8</dimIncrement><bitOffset>0</bitOffset><bitWidth>2</bitWidth></field></fields></register>",
        b"T.r 0x40000000 32 rw 0x00000000\n  lv[0] [1:0] rw modify\n  lv[1] [9:8] rw modify\n  lv[2] [17:16] rw modify\n  lv[3] [25:24] rw modify\n",
    ),
];

#[test]
fn listed_registers(rt: HostRuntime) -> Result<(), Fail> {
    for &(row, registers, output) in LISTED {
        assert!(rt;
            lists_registers(rt.alloc(), registers, &listing(output))?,
            "{row}"
        );
    }
    Ok(())
}
