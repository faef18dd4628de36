// Turing machines at the bounds of their sizes, and the rings that they draw.
use machines::{Configuration, Move, Turing, UnknownMove};
use rings::Direction;
use rules::{Rule, RuleFault, map_ring};
use std::test::Fail;

fn is_machine(symbols: u32, heads: u32) -> bool {
    Turing::new(symbols, heads).is_ok()
}

#[test]
fn the_sizes_have_bounds(rt: HostRuntime) {
    assert_eq!(rt; is_machine(0, 1), false);
    assert_eq!(rt; is_machine(1, 0), false);
    assert_eq!(rt; is_machine(65, 1), false);
    assert_eq!(rt; is_machine(1, 65), false);
    assert_eq!(rt; is_machine(64, 1), true);
    assert_eq!(rt; is_machine(1, 64), true);
    assert_eq!(rt; is_machine(8, 64), true);
    assert_eq!(rt; is_machine(27, 19), false);
}

#[test]
fn a_transition_has_bounds(rt: HostRuntime) -> Result<(), Fail> {
    let mut machine = Turing::new(2, 3)?;
    assert_eq!(rt; machine.enter(6, 0, 0, 0), Err(RuleFault::OutOfRange));
    assert_eq!(rt; machine.enter(6, 9, 9, 9), Err(RuleFault::OutOfRange));
    assert_eq!(rt; machine.enter(5, 2, 0, 0), Err(RuleFault::BadEntry(5)));
    assert_eq!(rt; machine.enter(5, 0, 3, 0), Err(RuleFault::BadEntry(5)));
    assert_eq!(rt; machine.enter(5, 0, 0, 3), Err(RuleFault::BadEntry(5)));
    // nothing was entered: a head in state 2 at the symbol 1 still stays
    assert_eq!(rt; machine.next(&[0, 7, 0]), Ok(7));
    assert_eq!(rt; machine.enter(5, 0, 1, 1), Ok(()));
    assert_eq!(rt; machine.next(&[0, 7, 0]), Ok(4));
    Ok(())
}

#[test]
fn moves_have_numbers(rt: HostRuntime) -> Result<(), Fail> {
    for number in 0..3 {
        let step = Move::try_from(number)?;
        assert_eq!(rt; u32::from(step), number);
    }
    assert_eq!(rt; Move::try_from(3).ok(), None);
    assert_eq!(rt; Move::try_from(3), Err(UnknownMove(3)));
    assert_eq!(rt; Move::try_from(0).ok(), Some(Move::Left));
    Ok(())
}

#[test]
fn one_state_and_two_symbols(rt: HostRuntime) -> Result<(), Fail> {
    let mut machine = Turing::new(2, 1)?;
    machine.enter(0, 1, 2, 0)?;
    machine.enter(1, 0, 0, 0)?;
    let mut two = [0; 2];
    map_ring(&machine, Direction::Forward, &[2, 0], &mut two)?;
    assert_eq!(rt; two, [1, 2]);
    let mut one = [0; 1];
    map_ring(&machine, Direction::Forward, &[2], &mut one)?;
    assert_eq!(rt; one, [3]);
    Ok(())
}

#[test]
fn heads_that_meet_leave_one(rt: HostRuntime) -> Result<(), Fail> {
    // state 0 moves right, state 1 stays, state 2 moves left; all write 0
    let mut machine = Turing::new(1, 3)?;
    machine.enter(0, 0, 2, 0)?;
    machine.enter(2, 0, 0, 2)?;
    assert_eq!(rt; machine.next(&[1, 2, 3]), Ok(1));
    assert_eq!(rt; machine.next(&[0, 2, 3]), Ok(2));
    assert_eq!(rt; machine.next(&[0, 1, 3]), Ok(3));
    assert_eq!(rt; machine.next(&[3, 1, 1]), Ok(0));
    Ok(())
}

fn configuration(tape: &[u32], position: usize, state: u32) -> Configuration<'_> {
    Configuration {
        tape,
        position,
        state,
    }
}

#[test]
fn a_configuration_is_drawn(rt: HostRuntime) -> Result<(), Fail> {
    let machine = Turing::new(3, 2)?;
    let mut buffer = [9; 4];
    assert_eq!(rt;
        machine.draw(configuration(&[2, 0, 1], 1, 1), &mut buffer),
        Ok(())
    );
    assert_eq!(rt; buffer, [2, 6, 1, 9]);
    assert_eq!(rt;
        machine.draw(configuration(&[], 0, 0), &mut buffer),
        Err(RuleFault::EmptyRing)
    );
    assert_eq!(rt;
        machine.draw(configuration(&[3], 1, 0), &mut buffer),
        Err(RuleFault::OutOfRange)
    );
    assert_eq!(rt;
        machine.draw(configuration(&[3], 0, 2), &mut buffer),
        Err(RuleFault::OutOfRange)
    );
    assert_eq!(rt;
        machine.draw(configuration(&[0, 0, 0, 0, 3], 0, 0), &mut buffer),
        Err(RuleFault::BadEntry(4))
    );
    assert_eq!(rt;
        machine.draw(configuration(&[0, 0, 0, 0, 0], 0, 0), &mut buffer),
        Err(RuleFault::ShortBuffer)
    );
    assert_eq!(rt; buffer, [2, 6, 1, 9]);
    Ok(())
}
