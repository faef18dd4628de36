// Lifts and choices.
use combinators::{Choice, Lift};
use orbits::evolve;
use rings::Direction;
use rules::{Rule, RuleFault, Shape, Table};
use std::test::Fail;

#[test]
fn the_identity_on_three_states_lifted(rt: HostRuntime) -> Result<(), Fail> {
    let lift = Lift::over(Table::new(3, 0, 0, &[0, 1, 2])?);
    assert_eq!(rt; lift.next(&[7]), Ok(5));
    assert_eq!(rt; lift.previous(&[5]), Ok(7));
    assert_eq!(rt; lift.inverse(), Some((0, 0)));
    assert_eq!(rt; lift.next(&[9]), Err(RuleFault::StrayCode(0)));
    assert_eq!(rt; lift.previous(&[0, 9]), Err(RuleFault::WrongLength));
    Ok(())
}

#[test]
fn a_lift_reads_its_own_cell_too(rt: HostRuntime) -> Result<(), Fail> {
    let lift = Lift::over(Table::new(2, 2, 3, &[0, 1, 1, 0])?);
    let shape = Shape {
        states: 4,
        lo: 0,
        hi: 3,
    };
    assert_eq!(rt; lift.shape(), shape);
    // own now 1 before 1, the cells read are now 1 and 0: next now 1 - 1, next before 1
    assert_eq!(rt; lift.next(&[3, 2, 1, 2]), Ok(2));
    // the cells read were 0 and 1 before: previous now 1, previous before 1 - 1
    assert_eq!(rt; lift.previous(&[3, 2, 1, 2]), Ok(1));
    Ok(())
}

#[test]
fn a_lifted_rule_runs_forward_and_back(rt: HostRuntime) -> Result<(), Fail> {
    let lift = Lift::over(Table::elementary(30));
    let mut ring = vec![in rt.alloc(); 0; 50]?;
    for (i, cell) in ring.iter_mut().enumerate() {
        *cell = if i % 7 == 3 { 1 } else { 0 };
    }
    let there = evolve(rt.alloc(), &lift, Direction::Forward, &ring, 100)?;
    assert!(rt; there.as_slice() != ring.as_slice());
    let back = evolve(rt.alloc(), &lift, Direction::Backward, &there, 100)?;
    assert!(rt; back.as_slice() == ring.as_slice());
    Ok(())
}

#[test]
fn a_rule_that_is_too_wide_comes_back(rt: HostRuntime) -> Result<(), Fail> {
    let refused = Lift::build(Table::new(1, 1, 64, &[0])?)
        .err()
        .ok_or("lifted")?;
    assert_eq!(rt; refused.fault.number(), 11);
    assert_eq!(rt; refused.fault.place(), 0);
    let shape = Shape {
        states: 1,
        lo: 1,
        hi: 64,
    };
    assert_eq!(rt; refused.given.shape(), shape);
    assert_eq!(rt; Lift::over(refused.given).shape(), shape);
    assert!(rt; Lift::build(Table::new(1, 1, 63, &[0])?).is_ok());
    Ok(())
}

#[test]
fn a_lift_can_be_lifted_while_it_is_small(rt: HostRuntime) -> Result<(), Fail> {
    let twice = Lift::over(Lift::over(Table::elementary(90)));
    assert_eq!(rt; twice.shape().states, 16);
    let large = Lift::over(Lift::over(Table::new(64, 0, 0, &[0; 64])?));
    assert_eq!(rt; large.shape().states, 16_777_216);
    let over = Lift::over(Lift::over(Table::new(65, 0, 0, &[0; 65])?));
    assert_eq!(rt; over.shape().states, 4225);
    Ok(())
}

#[test]
fn a_choice_goes_by_its_number(rt: HostRuntime) {
    let first = Choice::new(Table::elementary(0), Table::elementary(255), 0);
    let second = Choice::new(Table::elementary(0), Table::elementary(255), 9);
    assert_eq!(rt; first.next(&[1, 1, 1]), Ok(0));
    assert_eq!(rt; second.next(&[1, 1, 1]), Ok(1));
    assert_eq!(rt; second.previous(&[1]), Err(RuleFault::NoInverse));
}

#[test]
fn every_kind_has_its_number(rt: HostRuntime) {
    assert_eq!(rt; <Lift<Table> as Rule>::KIND, 0x0020);
    assert_eq!(rt; <Choice<Table, Table> as Rule>::KIND, 0x0000);
    assert_eq!(rt; <Table as Rule>::KIND, 0x0010);
}
