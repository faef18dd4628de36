// Actions at the edge of each limit: the last outcome that fits, and the first that does not.
use combinators::Lift;
use floors::{Action, Floor};
use rules::{RuleFault, Table};
use std::process::Abort;
use std::test::Fail;
use towers::{Ground, Tower};

// The number of a refusal, if there is one: none, an argument out of range, an outcome that does not fit.
const FITS: Option<u16> = None;

const OUT: Option<u16> = Some(9);

const UNFIT: Option<u16> = Some(11);

// The cells lo to hi that a rule with one state reads, an action over it, and the number of its refusal.
type Case = (i32, i32, Action, Option<u16>);

const ARGUMENTS: [Case; 6] = [
    (0, 0, Action::Pack(0), OUT),
    (0, 0, Action::Pack(17), OUT),
    (0, 0, Action::Iterate(0), OUT),
    (0, 0, Action::Iterate(17), OUT),
    (0, 0, Action::Shift(17), OUT),
    (0, 0, Action::Shift(-17), OUT),
];

const ENDS: [Case; 11] = [
    (112, 112, Action::Shift(16), FITS),
    (113, 113, Action::Shift(16), UNFIT),
    (-112, -112, Action::Shift(-16), FITS),
    (-113, -113, Action::Shift(-16), UNFIT),
    (8, 8, Action::Iterate(16), FITS),
    (43, 43, Action::Iterate(3), UNFIT),
    (-8, -8, Action::Iterate(16), FITS),
    (-43, -43, Action::Iterate(3), UNFIT),
    (-128, -128, Action::Mirror, FITS),
    (128, 128, Action::Pack(1), FITS),
    (-128, -128, Action::Reduce, FITS),
];

const WIDTHS: [Case; 4] = [
    (0, 21, Action::Iterate(3), FITS),
    (0, 16, Action::Iterate(4), UNFIT),
    (-8, 8, Action::Reduce, FITS),
    (-8, 9, Action::Reduce, UNFIT),
];

// A rule with one state that reads the cells lo to hi.
fn one_state(lo: i32, hi: i32) -> Result<Ground<Table>, RuleFault> {
    Ok(Ground::over(Table::new(1, lo, hi, &[0])?))
}

// The number of the fault with which an action over a tower is refused, if it is.
fn refusal<T: Tower + Drop>(tower: T, action: Action) -> Option<u16> {
    Floor::build(tower, action, 1)
        .err()
        .map(|refused| refused.fault.number())
}

fn check_cases(rt: &impl Abort, cases: &[Case]) -> Result<(), Fail> {
    for (lo, hi, action, fault) in cases {
        let tower = one_state(*lo, *hi)?;
        assert_eq!(rt; refusal(tower, *action), *fault);
    }
    Ok(())
}

// Four floors with the same action.
fn four_times<T: Tower>(tower: T, action: Action) -> Floor<Floor<Floor<Floor<T>>>> {
    let twice = Floor::over(Floor::over(tower, action), action);
    Floor::over(Floor::over(twice, action), action)
}

// A floor that packs 16 cells and one that makes 16 steps.
fn pack_and_iterate<T: Tower>(tower: T) -> Floor<Floor<T>> {
    Floor::over(Floor::over(tower, Action::Pack(16)), Action::Iterate(16))
}

#[test]
fn arguments_have_ranges(rt: HostRuntime) -> Result<(), Fail> {
    check_cases(&rt, &ARGUMENTS)
}

#[test]
fn intervals_have_ends(rt: HostRuntime) -> Result<(), Fail> {
    check_cases(&rt, &ENDS)
}

#[test]
fn intervals_have_a_width(rt: HostRuntime) -> Result<(), Fail> {
    check_cases(&rt, &WIDTHS)
}

#[test]
fn states_are_at_most_16_777_216(rt: HostRuntime) -> Result<(), Fail> {
    let eight = [0; 64];
    let packed = Ground::over(Table::new(8, 0, 1, &eight)?);
    assert_eq!(rt; refusal(packed, Action::Pack(8)), FITS);
    let packed = Ground::over(Table::new(8, 0, 1, &eight)?);
    assert_eq!(rt; refusal(packed, Action::Pack(9)), UNFIT);
    // a reduction packs the width less one
    let nine = Floor::over(
        Ground::over(Table::new(8, 0, 1, &eight)?),
        Action::Iterate(8),
    );
    assert_eq!(rt; refusal(nine, Action::Reduce), FITS);
    let ten = Floor::over(
        Ground::over(Table::new(8, 0, 1, &eight)?),
        Action::Iterate(9),
    );
    assert_eq!(rt; refusal(ten, Action::Reduce), UNFIT);
    Ok(())
}

#[test]
fn blocks_are_at_most_65_536(rt: HostRuntime) -> Result<(), Fail> {
    let packed = four_times(one_state(-1, 1)?, Action::Pack(16));
    assert_eq!(rt; packed.numbers().block, 65_536);
    assert_eq!(rt; refusal(packed, Action::Pack(1)), FITS);
    let packed = four_times(one_state(-1, 1)?, Action::Pack(16));
    assert_eq!(rt; refusal(packed, Action::Pack(2)), UNFIT);
    let packed = four_times(one_state(-1, 1)?, Action::Pack(16));
    assert_eq!(rt; refusal(packed, Action::Reduce), UNFIT);
    Ok(())
}

#[test]
fn steps_are_at_most_65_536(rt: HostRuntime) -> Result<(), Fail> {
    let iterated = four_times(one_state(0, 0)?, Action::Iterate(16));
    assert_eq!(rt; iterated.numbers().steps, 65_536);
    assert_eq!(rt; refusal(iterated, Action::Iterate(1)), FITS);
    let iterated = four_times(one_state(0, 0)?, Action::Iterate(16));
    assert_eq!(rt; refusal(iterated, Action::Iterate(2)), UNFIT);
    Ok(())
}

// Two floors more over a tower bring it to the largest drift.
fn check_two_floors_more<T: Tower + Drop>(rt: &impl Abort, below: T) {
    let tower = pack_and_iterate(below);
    let numbers = tower.numbers();
    assert_eq!(rt; numbers.drift, 16_777_216);
    assert_eq!(rt; numbers.block, 65_536);
    assert_eq!(rt; numbers.steps, 65_536);
    assert_eq!(rt; numbers.hi, 128);
    assert_eq!(rt; refusal(tower, Action::Shift(1)), UNFIT);
}

// Six floors more over a tower bring it to the largest drift.
fn check_six_floors_more<T: Tower + Drop>(rt: &impl Abort, below: T) {
    check_two_floors_more(rt, pack_and_iterate(pack_and_iterate(below)));
}

// The largest drift needs the largest block, steps and end: it is never passed alone. Its ten floors are put up by three functions,
// for the compiler's work doubles and more with each floor that one function puts up.
#[test]
fn a_drift_is_at_most_16_777_216(rt: HostRuntime) -> Result<(), Fail> {
    let packed = Floor::over(
        Floor::over(one_state(-128, -128)?, Action::Reduce),
        Action::Pack(16),
    );
    let moved = Floor::over(Floor::over(packed, Action::Shift(8)), Action::Iterate(16));
    check_six_floors_more(&rt, moved);
    Ok(())
}

// The interval of a lift's inverse moves the other way.
#[test]
fn the_interval_of_an_inverse_has_ends(rt: HostRuntime) -> Result<(), Fail> {
    let fitting = inverse_at_an_end()?;
    assert_eq!(rt; fitting.numbers().lo, 0);
    assert_eq!(rt; fitting.numbers().hi, 60);
    assert_eq!(rt; fitting.numbers().inverse, Some((-120, -60)));
    assert_eq!(rt; refusal(fitting, Action::Shift(8)), FITS);
    assert_eq!(rt; refusal(inverse_at_an_end()?, Action::Shift(9)), UNFIT);
    Ok(())
}

// A lift with the interval 0 to 60, and -120 to -60 for its inverse.
fn inverse_at_an_end() -> Result<Floor<Floor<Ground<Lift<Table>>>>, RuleFault> {
    let lift = Lift::over(Table::new(1, -4, 0, &[0])?);
    let moved = Floor::over(Ground::over(lift), Action::Shift(4));
    Ok(Floor::over(moved, Action::Iterate(15)))
}

#[test]
fn reduction_moves_an_interval_from_afar(rt: HostRuntime) -> Result<(), Fail> {
    let floor = Floor::over(
        Ground::over(Table::new(2, 100, 101, &[0, 1, 1, 0])?),
        Action::Reduce,
    );
    let numbers = floor.numbers();
    assert_eq!(rt; numbers.lo, 0);
    assert_eq!(rt; numbers.hi, 1);
    assert_eq!(rt; numbers.states, 2);
    assert_eq!(rt; numbers.block, 1);
    assert_eq!(rt; numbers.drift, -100);
    Ok(())
}
