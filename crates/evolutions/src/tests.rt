// A published evolution with an error in it is told.
use crate::check::Published;
use crate::vectors::{Beaver, Halt, Rows, Run};
use std::test::Fail;

#[test]
fn a_wrong_row_is_told(rt: HostRuntime) -> Result<(), Fail> {
    let rows = Rows {
        rule: 30,
        sequence: "A110240",
        values: &[1, 7, 24, 111],
    };
    let difference = rows.check(rt.alloc())?.ok_or("taken for right")?;
    assert_eq!(rt; difference.row, 2);
    assert!(rt; difference.expected.as_str() == "24");
    assert!(rt; difference.found.as_str() == "25");
    Ok(())
}

#[test]
fn a_wrong_ring_is_told(rt: HostRuntime) -> Result<(), Fail> {
    let run = Run {
        rule: 110,
        steps: 2,
        first: "0001",
        last: "0110",
    };
    let difference = run.check(rt.alloc())?.ok_or("taken for right")?;
    assert_eq!(rt; difference.row, 2);
    assert!(rt; difference.expected.as_str() == "0110");
    assert!(rt; difference.found.as_str() == "0111");
    Ok(())
}

#[test]
fn a_wrong_halt_is_told(rt: HostRuntime) -> Result<(), Fail> {
    let beaver = Beaver {
        halt: Halt { steps: 7, ones: 4 },
    };
    let difference = beaver.check(rt.alloc())?.ok_or("taken for right")?;
    assert!(rt; difference.expected.as_str() == "4 ones after 7 steps");
    assert!(rt; difference.found.as_str() == "4 ones after 6 steps");
    Ok(())
}
