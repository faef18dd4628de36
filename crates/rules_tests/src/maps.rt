// Whole rings mapped once.
use rings::Direction;
use rules::{RuleFault, Table, map_ring};
use std::test::Fail;

#[test]
fn rule_110_steps(rt: HostRuntime) -> Result<(), Fail> {
    let rule = Table::elementary(110);
    let mut first = [0; 4];
    map_ring(&rule, Direction::Forward, &[0, 0, 0, 1], &mut first)?;
    assert_eq!(rt; first, [0, 0, 1, 1]);
    let mut second = [0; 4];
    map_ring(&rule, Direction::Forward, &first, &mut second)?;
    assert_eq!(rt; second, [0, 1, 1, 1]);
    Ok(())
}

#[test]
fn rings_shorter_than_the_window_wrap(rt: HostRuntime) -> Result<(), Fail> {
    let rule = Table::elementary(110);
    let mut one = [7; 2];
    map_ring(&rule, Direction::Forward, &[1], &mut one)?;
    assert_eq!(rt; one, [0, 7]);
    // each cell of two reads the other one twice: 1 0 1 gives 1, and 0 1 0 gives 1
    let mut two = [7; 3];
    map_ring(&rule, Direction::Forward, &[1, 0], &mut two)?;
    assert_eq!(rt; two, [1, 1, 7]);
    Ok(())
}

#[test]
fn an_interval_may_lie_far_away(rt: HostRuntime) -> Result<(), Fail> {
    // the code 128 cells to the right is, on a ring of 5 cells, that 3 cells to the right
    let far = Table::new(4, 128, 128, &[0, 1, 2, 3])?;
    let mut buffer = [9; 6];
    map_ring(&far, Direction::Forward, &[0, 1, 2, 3, 0], &mut buffer)?;
    assert_eq!(rt; buffer, [3, 0, 0, 1, 2, 9]);
    let back = Table::new(4, -128, -128, &[0, 1, 2, 3])?;
    map_ring(&back, Direction::Forward, &[0, 1, 2, 3, 0], &mut buffer)?;
    assert_eq!(rt; buffer, [2, 3, 0, 0, 1, 9]);
    Ok(())
}

#[test]
fn one_state_may_have_the_widest_window(rt: HostRuntime) -> Result<(), Fail> {
    let rule = Table::new(1, -31, 32, &[0])?;
    let ring = [0; 2048];
    let mut buffer = [5; 2048];
    map_ring(&rule, Direction::Forward, &ring, &mut buffer)?;
    assert_eq!(rt; buffer[0], 0);
    assert_eq!(rt; buffer[2047], 0);
    let mut short = [5; 1];
    map_ring(&rule, Direction::Forward, &[0], &mut short)?;
    assert_eq!(rt; short, [0]);
    Ok(())
}

#[test]
fn a_refusal_leaves_the_buffer(rt: HostRuntime) {
    let rule = Table::elementary(30);
    let long = [2; 2049];
    let mut buffer = [9; 3];
    assert_eq!(rt;
        map_ring(&rule, Direction::Backward, &[], &mut buffer),
        Err(RuleFault::NoInverse)
    );
    assert_eq!(rt;
        map_ring(&rule, Direction::Forward, &[], &mut buffer),
        Err(RuleFault::EmptyRing)
    );
    assert_eq!(rt;
        map_ring(&rule, Direction::Forward, &long, &mut buffer),
        Err(RuleFault::LongRing)
    );
    assert_eq!(rt;
        map_ring(&rule, Direction::Forward, &[2, 2, 2, 2], &mut buffer),
        Err(RuleFault::ShortBuffer)
    );
    assert_eq!(rt;
        map_ring(&rule, Direction::Forward, &[1, 0, 2], &mut buffer),
        Err(RuleFault::StrayCode(2))
    );
    assert_eq!(rt; buffer, [9, 9, 9]);
}
