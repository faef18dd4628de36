// Tables at the bounds of their sizes, and what they answer.
use rules::{Rule, RuleFault, Shape, Table};
use std::test::Fail;

// Why the sizes make no table, with `count` entries of 0; none where they make one.
fn refusal(states: u32, lo: i32, hi: i32, count: usize) -> Option<RuleFault> {
    let zeros = [0; 2048];
    let count = count.min(2048);
    Table::new(states, lo, hi, &zeros[0..count]).err()
}

#[test]
fn the_number_of_states_has_bounds(rt: HostRuntime) {
    assert_eq!(rt; refusal(0, 0, 0, 0), Some(RuleFault::OutOfRange));
    assert_eq!(rt; refusal(0, 0, 0, 1), Some(RuleFault::OutOfRange));
    assert_eq!(rt; refusal(1, 0, 0, 1), None);
    assert_eq!(rt; refusal(1024, 0, 0, 1024), None);
    assert_eq!(rt; refusal(1025, 0, 0, 1025), Some(RuleFault::OutOfRange));
}

#[test]
fn the_interval_has_bounds(rt: HostRuntime) {
    assert_eq!(rt; refusal(1, 0, 63, 1), None);
    assert_eq!(rt; refusal(1, 0, 64, 1), Some(RuleFault::OutOfRange));
    assert_eq!(rt; refusal(2, -128, -128, 2), None);
    assert_eq!(rt; refusal(2, -129, -129, 2), Some(RuleFault::OutOfRange));
    assert_eq!(rt; refusal(2, 128, 128, 2), None);
    assert_eq!(rt; refusal(2, 129, 129, 2), Some(RuleFault::OutOfRange));
    assert_eq!(rt; refusal(2, 1, 0, 4), Some(RuleFault::OutOfRange));
}

#[test]
fn the_number_of_entries_has_bounds(rt: HostRuntime) {
    assert_eq!(rt; refusal(2, 0, 9, 1024), None);
    assert_eq!(rt; refusal(2, 0, 9, 1023), Some(RuleFault::WrongLength));
    assert_eq!(rt; refusal(2, 0, 9, 1025), Some(RuleFault::WrongLength));
    assert_eq!(rt; refusal(2, 0, 10, 2048), Some(RuleFault::OutOfRange));
    assert_eq!(rt; refusal(32, 0, 1, 1024), None);
    assert_eq!(rt; refusal(33, 0, 1, 1089), Some(RuleFault::OutOfRange));
}

#[test]
fn the_first_bad_entry_is_told(rt: HostRuntime) -> Result<(), Fail> {
    let fault = Table::new(3, 0, 0, &[2, 3, 4]).err().ok_or("built")?;
    assert_eq!(rt; fault.number(), 10);
    assert_eq!(rt; fault.place(), 1);
    assert!(rt; !Table::new(3, 0, 0, &[2, 2, 4]).is_ok());
    assert!(rt; Table::new(3, 0, 0, &[2, 0, 1]).is_ok());
    Ok(())
}

#[test]
fn a_window_counts_its_first_cell_most(rt: HostRuntime) -> Result<(), Fail> {
    let table = Table::new(3, 4, 5, &[0, 1, 2, 1, 1, 1, 2, 0, 2])?;
    let shape = Shape {
        states: 3,
        lo: 4,
        hi: 5,
    };
    assert_eq!(rt; table.shape(), shape);
    assert_eq!(rt; table.next(&[2, 1]), Ok(0));
    assert_eq!(rt; table.next(&[1, 2]), Ok(1));
    assert_eq!(rt; table.next(&[0, 2]), Ok(2));
    assert_eq!(rt; table.next(&[1, 2, 0]), Err(RuleFault::WrongLength));
    assert_eq!(rt; table.next(&[2, 3]), Err(RuleFault::StrayCode(1)));
    Ok(())
}

#[test]
fn a_table_has_no_inverse(rt: HostRuntime) {
    let table = Table::elementary(204);
    assert_eq!(rt; table.inverse(), None);
    assert_eq!(rt; table.previous(&[0, 0, 0]), Err(RuleFault::NoInverse));
    assert_eq!(rt; table.previous(&[9]), Err(RuleFault::NoInverse));
    assert_eq!(rt; <Table as Rule>::KIND, 0x0010);
}

#[test]
fn every_refusal_has_its_number(rt: HostRuntime) {
    let faults = [
        (RuleFault::EmptyRing, 1, 0),
        (RuleFault::LongRing, 2, 0),
        (RuleFault::StrayCode(7), 4, 7),
        (RuleFault::ShortBuffer, 5, 0),
        (RuleFault::NoInverse, 7, 0),
        (RuleFault::WrongLength, 8, 0),
        (RuleFault::OutOfRange, 9, 0),
        (RuleFault::BadEntry(7), 10, 7),
        (RuleFault::Unliftable, 11, 0),
    ];
    for (fault, number, place) in faults {
        assert_eq!(rt; fault.number(), number);
        assert_eq!(rt; fault.place(), place);
    }
}
