// Rings encoded, stepped and decoded.
use combinators::Lift;
use floors::{Action, Floor};
use orbits::evolve;
use rings::Direction;
use rules::{Rule, RuleFault, Table, map_ring};
use std::test::Fail;
use towers::{Ground, Tower, TowerFault, decode, encode};

const RING: [u32; 10] = [1, 0, 3, 0, 0, 2, 1, 0, 0, 0];

// Rule 90 lifted.
fn lifted_90() -> Lift<Table> {
    Lift::over(Table::elementary(90))
}

// Four floors over rule 90 lifted.
fn four_floors() -> Floor<Floor<Floor<Floor<Ground<Lift<Table>>>>>> {
    let ground = Ground::over(lifted_90());
    let mirrored = Floor::over(Floor::over(ground, Action::Pack(2)), Action::Mirror);
    Floor::over(Floor::over(mirrored, Action::Shift(3)), Action::Iterate(2))
}

// The number and the place of a refusal, if there is one.
fn refusal(answer: Result<(), TowerFault>) -> Option<(u16, usize)> {
    answer.err().map(|fault| (fault.number(), fault.place()))
}

#[test]
fn rule_110_reduced(rt: HostRuntime) -> Result<(), Fail> {
    let ground = Ground::over(Table::elementary(110));
    let floor = Floor::build(ground, Action::Reduce, 1)?;
    let numbers = floor.numbers();
    assert_eq!(rt; numbers.block, 2);
    assert_eq!(rt; numbers.states, 4);
    assert_eq!(rt; numbers.lo, 0);
    assert_eq!(rt; numbers.hi, 1);
    assert_eq!(rt; numbers.drift, 1);
    assert_eq!(rt; numbers.steps, 1);
    let mut buffer = [9; 3];
    encode(&floor, &[0, 0, 0, 1], &mut buffer)?;
    assert_eq!(rt; buffer, [0, 2, 9]);
    let mut next = [9; 2];
    map_ring(&floor, Direction::Forward, &[0, 2], &mut next)?;
    assert_eq!(rt; next, [2, 1]);
    // the bottom's next ring 0 0 1 1, turned by the drift
    let mut decoded = [9; 4];
    decode(&floor, &next, &mut decoded)?;
    assert_eq!(rt; decoded, [0, 1, 1, 0]);
    Ok(())
}

#[test]
fn a_refused_encoding_leaves_the_buffer(rt: HostRuntime) -> Result<(), Fail> {
    let floor = Floor::over(Ground::over(Table::elementary(110)), Action::Pack(3));
    let mut buffer = [9; 1];
    assert_eq!(rt; refusal(encode(&floor, &[], &mut buffer)), Some((1, 0)));
    assert_eq!(rt;
        refusal(encode(&floor, &[0, 2, 0, 0], &mut buffer)),
        Some((3, 0))
    );
    let stray = encode(&floor, &[0, 2, 0, 0, 0, 0], &mut buffer);
    assert_eq!(rt; refusal(stray), Some((4, 1)));
    let short = encode(&floor, &[0, 1, 0, 0, 0, 0], &mut buffer);
    assert_eq!(rt; refusal(short), Some((5, 0)));
    assert_eq!(rt; buffer, [9]);
    encode(&floor, &[0, 1, 1], &mut buffer)?;
    assert_eq!(rt; buffer, [6]);
    Ok(())
}

#[test]
fn a_refused_decoding_leaves_the_buffer(rt: HostRuntime) -> Result<(), Fail> {
    let floor = Floor::over(Ground::over(Table::elementary(110)), Action::Pack(3));
    let mut buffer = [9; 4];
    assert_eq!(rt; refusal(decode(&floor, &[], &mut buffer)), Some((1, 0)));
    assert_eq!(rt; refusal(decode(&floor, &[7, 8], &mut buffer)), Some((4, 1)));
    assert_eq!(rt; refusal(decode(&floor, &[7, 6], &mut buffer)), Some((5, 0)));
    assert_eq!(rt; buffer, [9, 9, 9, 9]);
    decode(&floor, &[6], &mut buffer)?;
    assert_eq!(rt; buffer, [0, 1, 1, 9]);
    Ok(())
}

#[test]
fn a_top_cell_steps_by_its_window(rt: HostRuntime) {
    let ground = Ground::over(lifted_90());
    let floor = Floor::over(ground, Action::Pack(2));
    assert_eq!(rt; floor.next(&[0, 1, 0]), Ok(6));
    assert_eq!(rt; floor.previous(&[0, 1, 0]), Ok(2));
    assert_eq!(rt; floor.next(&[0, 1]), Err(RuleFault::WrongLength));
    assert_eq!(rt; floor.previous(&[0, 1, 16]), Err(RuleFault::StrayCode(2)));
}

#[test]
fn a_step_of_four_floors_is_two_steps_and_a_turn(rt: HostRuntime) -> Result<(), Fail> {
    let tower = four_floors();
    let numbers = tower.numbers();
    assert_eq!(rt; numbers.steps, 2);
    assert_eq!(rt; numbers.drift, -12);
    let mut code = [0; 5];
    encode(&tower, &RING, &mut code)?;
    assert_eq!(rt; code, [0, 1, 8, 3, 1]);
    let mut top = [0; 5];
    map_ring(&tower, Direction::Forward, &code, &mut top)?;
    let mut reached = evolve(rt.alloc(), &lifted_90(), Direction::Forward, &RING, 2)?;
    assert_eq!(rt; reached.len(), 10);
    // turned by -12 cells, which are 8 of 10
    reached.rotate_left(8);
    let mut bottom = [0; 5];
    encode(&tower, &reached, &mut bottom)?;
    assert_eq!(rt; top, bottom);
    assert!(rt; top != code);
    Ok(())
}

#[test]
fn a_step_back_of_four_floors_is_two_steps_back_and_a_turn(rt: HostRuntime) -> Result<(), Fail> {
    let tower = four_floors();
    let mut top = [0; 5];
    map_ring(&tower, Direction::Backward, &[0, 1, 8, 3, 1], &mut top)?;
    let mut reached = evolve(rt.alloc(), &lifted_90(), Direction::Backward, &RING, 2)?;
    assert_eq!(rt; reached.len(), 10);
    // turned by 12 cells, which are 2 of 10
    reached.rotate_left(2);
    let mut bottom = [0; 5];
    encode(&tower, &reached, &mut bottom)?;
    assert_eq!(rt; top, bottom);
    let mut again = [0; 5];
    map_ring(&tower, Direction::Forward, &top, &mut again)?;
    assert_eq!(rt; again, [0, 1, 8, 3, 1]);
    Ok(())
}
