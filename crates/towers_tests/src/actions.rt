// Actions, and the floors that they make.
use floors::{Action, Floor};
use rules::Table;
use std::test::Fail;
use towers::{Ground, Numbers, Place, Tower};

// The number of the fault with which an action is refused, if it is.
fn refusal(number: u16, argument: i16) -> Option<u16> {
    Action::new(number, argument)
        .err()
        .map(|fault| fault.number())
}

// The number of the fault with which a place is refused, if it is.
fn place_refusal<T: Tower>(tower: &T, n: usize, j: usize) -> Option<u16> {
    tower.place(n, j).err().map(|fault| fault.number())
}

// The number and the argument of an action, and the number of its refusal, if there is one.
const ACTIONS: [(u16, i16, Option<u16>); 21] = [
    (0, 0, None),
    (0, 1, Some(9)),
    (1, -17, Some(9)),
    (1, 0, Some(9)),
    (1, 1, None),
    (1, 16, None),
    (1, 17, Some(9)),
    (2, -17, Some(9)),
    (2, 0, Some(9)),
    (2, 1, None),
    (2, 16, None),
    (2, 17, Some(9)),
    (3, -17, Some(9)),
    (3, -16, None),
    (3, 16, None),
    (3, 17, Some(9)),
    (4, 0, None),
    (4, 1, Some(9)),
    (5, 0, None),
    (5, 1, Some(9)),
    (6, 0, Some(9)),
];

#[test]
fn an_action_has_a_number_and_a_range(rt: HostRuntime) {
    for (number, argument, fault) in ACTIONS {
        match Action::new(number, argument) {
            Ok(action) => {
                assert_eq!(rt; fault, None);
                assert_eq!(rt; action.number(), number);
            }
            Err(refusal) => assert_eq!(rt; Some(refusal.number()), fault),
        }
    }
}

#[test]
fn an_action_has_bounds(rt: HostRuntime) -> Result<(), Fail> {
    assert_eq!(rt; refusal(6, 0), Some(9));
    assert_eq!(rt; refusal(0, 1), Some(9));
    assert_eq!(rt; refusal(4, 1), Some(9));
    assert_eq!(rt; refusal(5, 1), Some(9));
    assert_eq!(rt; refusal(1, 0), Some(9));
    assert_eq!(rt; refusal(1, 17), Some(9));
    assert_eq!(rt; refusal(2, 17), Some(9));
    assert_eq!(rt; refusal(3, 17), Some(9));
    assert_eq!(rt; refusal(3, -17), Some(9));
    assert_eq!(rt; Action::new(1, 16)?.number(), 1);
    assert_eq!(rt; Action::new(3, -16)?.number(), 3);
    Ok(())
}

#[test]
fn four_floors_multiply_their_numbers(rt: HostRuntime) -> Result<(), Fail> {
    let ground = Ground::over(Table::elementary(110));
    let first = Floor::build(ground, Action::Pack(2), 1)?;
    let second = Floor::build(first, Action::Mirror, 2)?;
    let third = Floor::build(second, Action::Shift(3), 3)?;
    let fourth = Floor::build(third, Action::Iterate(4), 4)?;
    let numbers = Numbers {
        states: 4,
        lo: 8,
        hi: 16,
        inverse: None,
        block: 2,
        steps: 4,
        drift: -24,
        mirrored: true,
        bottom: 2,
    };
    assert_eq!(rt; fourth.numbers(), numbers);
    Ok(())
}

#[test]
fn a_floor_that_does_not_fit_brings_the_tower_back(rt: HostRuntime) -> Result<(), Fail> {
    let ground = Ground::over(Table::elementary(110));
    let first = Floor::build(ground, Action::Pack(16), 1)?;
    let refused = Floor::build(first, Action::Pack(16), 2)
        .err()
        .ok_or("built")?;
    assert_eq!(rt; refused.fault.number(), 11);
    assert_eq!(rt; refused.fault.place(), 2);
    let numbers = Numbers {
        states: 65_536,
        lo: -1,
        hi: 1,
        inverse: None,
        block: 16,
        steps: 1,
        drift: 0,
        mirrored: false,
        bottom: 2,
    };
    assert_eq!(rt; refused.given.numbers(), numbers);
    // a floor that is put over it all the same does nothing
    let same = Floor::over(refused.given, Action::Pack(16));
    assert_eq!(rt; same.numbers(), numbers);
    Ok(())
}

#[test]
fn a_bottom_cell_has_a_place(rt: HostRuntime) -> Result<(), Fail> {
    let packed = Floor::over(Ground::over(Table::elementary(110)), Action::Pack(3));
    assert_eq!(rt; place_refusal(&packed, 0, 0), Some(1));
    assert_eq!(rt; place_refusal(&packed, 4, 0), Some(3));
    assert_eq!(rt; place_refusal(&packed, 4, 4), Some(3));
    assert_eq!(rt; place_refusal(&packed, 6, 6), Some(9));
    assert_eq!(rt; packed.place(6, 5)?, Place { cell: 1, digit: 2 });
    let mirrored = Floor::over(packed, Action::Mirror);
    assert_eq!(rt; mirrored.place(6, 5)?, Place { cell: 0, digit: 2 });
    Ok(())
}
