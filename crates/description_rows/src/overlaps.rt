use crate::checks::tells;
use overlap_check::Policy;
use std::test::Fail;

// What stands in a peripheral, and the line of the first fault where overlaps are asked for.
const ROWS: &[(&str, &[u8], &[u8])] = &[
    (
        "two registers at one address",
        b"<register><name>CCMR1_OUTPUT</name><addressOffset>0x18</addressOffset></register><register><name>CCMR1_INPUT</name><addressOffset>0x18</addressOffset></register>",
        b"pac: T.CCMR1_OUTPUT and T.CCMR1_INPUT overlap\n",
    ),
    (
        "an alternate register",
        b"<register><name>CCMR1_OUTPUT</name><addressOffset>0x18</addressOffset></register><register><name>CCMR1_INPUT</name><addressOffset>0x18</addressOffset><alternateRegister>CCMR1_OUTPUT</alternateRegister></register>",
        b"",
    ),
    (
        "a group of alternates",
        b"<register><name>A</name><addressOffset>0</addressOffset></register><register><name>B</name><addressOffset>0</addressOffset><alternateGroup>G</alternateGroup></register>",
        b"",
    ),
    (
        "the least second and then the least first",
        b"<register><name>A</name><addressOffset>0</addressOffset></register><register><name>B</name><addressOffset>2</addressOffset><size>16</size></register><register><name>C</name><addressOffset>0</addressOffset><size>8</size></register>",
        b"pac: T.A and T.B overlap\n",
    ),
    (
        "arrays whose members stand between each other",
        b"<register><name>A[%s]</name><dim>3</dim><dimIncrement>8</dimIncrement><addressOffset>0</addressOffset></register><register><name>B[%s]</name><dim>3</dim><dimIncrement>8</dimIncrement><addressOffset>4</addressOffset></register>",
        b"",
    ),
    (
        "two members of one array",
        b"<register><name>A[%s]</name><dim>3</dim><addressOffset>4</addressOffset></register>",
        b"pac: T.A[0] and T.A[1] overlap\n",
    ),
    (
        "a member of a list by its name",
        b"<register><name>CH%s</name><dim>2</dim><dimIncrement>4</dimIncrement><addressOffset>0</addressOffset></register><register><name>ALL</name><addressOffset>0</addressOffset><size>64</size><alternateRegister>CH0</alternateRegister></register>",
        b"pac: T.CH1 and T.ALL overlap\n",
    ),
    (
        "a register and one in a cluster with an alternate",
        b"<register><name>A</name><addressOffset>0</addressOffset></register><cluster><name>C</name><alternateCluster>D</alternateCluster><addressOffset>0</addressOffset><register><name>B</name><addressOffset>0</addressOffset></register></cluster>",
        b"",
    ),
    (
        "two members of a cluster with an alternate",
        b"<cluster><name>C[%s]</name><dim>2</dim><alternateCluster>D</alternateCluster><addressOffset>0</addressOffset><register><name>B</name><addressOffset>0</addressOffset></register></cluster>",
        b"pac: T.C[0].B and T.C[1].B overlap\n",
    ),
    (
        "a register whose own alternate is a cluster",
        b"<cluster><name>C</name><addressOffset>0</addressOffset><register><name>B</name><addressOffset>0</addressOffset></register></cluster><register><name>A</name><addressOffset>0</addressOffset><alternateRegister>C</alternateRegister></register>",
        b"pac: T.C.B and T.A overlap\n",
    ),
    (
        "fields",
        b"<register><name>R[%s]</name><dim>2</dim><dimIncrement>4</dimIncrement><addressOffset>0</addressOffset><fields><field><name>A</name><bitRange>[3:0]</bitRange><access>read-only</access></field><field><name>B</name><bitRange>[3:0]</bitRange><access>write-only</access></field><field><name>C</name><bitRange>[7:3]</bitRange><access>write-only</access></field></fields></register>",
        b"pac: T.R[%s].B and T.R[%s].C overlap\n",
    ),
];

#[test]
fn overlaps_are_refused_where_they_are_asked_for(rt: HostRuntime) -> Result<(), Fail> {
    for &(row, registers, wanted) in ROWS {
        assert!(rt;
            tells(rt.alloc(), registers, Policy::Strict, wanted)?,
            "{row}"
        );
    }
    Ok(())
}
