// Lists of calls on several towers, refused calls between, compared with the bottom rule itself.
use combinators::Lift;
use floors::{Action, Floor};
use orbits::evolve;
use rings::Direction;
use rules::Table;
use runs::{Call, Holder, simulate};
use std::alloc::Global;
use std::process::Abort;
use std::test::Fail;
use towers::{Ground, Tower};

// A ring of rule 30 lifted, whose codes are below 4.
const RING: [u32; 12] = [1, 0, 3, 0, 0, 2, 1, 0, 0, 0, 2, 3];

// A list of calls, the steps that a run has gone after it, and the index and the number of its first refused call.
#[derive(Clone, Copy)]
struct Case {
    calls: &'static [Call],
    steps: i32,
    refused: Option<(usize, u16)>,
}

const CASES: [Case; 6] = [
    Case {
        calls: &[],
        steps: 0,
        refused: None,
    },
    Case {
        calls: &[Call::Advance(5), Call::Read, Call::Back(2), Call::Tell],
        steps: 3,
        refused: None,
    },
    Case {
        calls: &[Call::Back(4), Call::Present, Call::Advance(1)],
        steps: -3,
        refused: None,
    },
    Case {
        calls: &[Call::Advance(2), Call::Advance(65_537), Call::Back(1)],
        steps: 1,
        refused: Some((1, 6)),
    },
    Case {
        calls: &[Call::Back(65_537), Call::Back(3), Call::Advance(70_000)],
        steps: -3,
        refused: Some((0, 6)),
    },
    Case {
        calls: &[Call::Advance(7), Call::Back(3), Call::Back(4), Call::Read],
        steps: 0,
        refused: None,
    },
];

fn lifted() -> Lift<Table> {
    Lift::over(Table::elementary(30))
}

fn ground() -> Ground<Lift<Table>> {
    Ground::over(lifted())
}

// Simulates a list of calls, and compares what is told and read with the case and with the bottom rule itself.
fn check_case<T: Tower + Drop>(
    rt: &impl Abort,
    heap: Global,
    tower: T,
    case: Case,
) -> Result<(), Fail> {
    let top_steps = tower.numbers().steps as usize;
    let mut a = [9; 12];
    let mut b = [9; 12];
    let mut third = [9; 12];
    let simulation = simulate(tower, &RING, case.calls, &mut a, &mut b, &mut third)?;
    let refused = simulation
        .refused
        .map(|call| (call.index, call.fault.number()));
    assert_eq!(rt; refused, case.refused);
    assert_eq!(rt; simulation.told.steps, case.steps);
    let holder = if case.steps % 2 == 0 {
        Holder::A
    } else {
        Holder::B
    };
    assert_eq!(rt; simulation.told.holder, holder);
    let direction = if case.steps < 0 {
        Direction::Backward
    } else {
        Direction::Forward
    };
    let steps = top_steps.saturating_mul(case.steps.unsigned_abs() as usize);
    let reached = evolve(heap, &lifted(), direction, &RING, steps)?;
    assert!(rt; third.as_slice() == reached.as_slice());
    Ok(())
}

#[test]
fn lists_on_a_ground(rt: HostRuntime) -> Result<(), Fail> {
    for case in CASES {
        check_case(&rt, rt.alloc(), ground(), case)?;
    }
    Ok(())
}

#[test]
fn lists_on_a_mirrored_tower(rt: HostRuntime) -> Result<(), Fail> {
    for case in CASES {
        let tower = Floor::over(ground(), Action::Mirror);
        check_case(&rt, rt.alloc(), tower, case)?;
    }
    Ok(())
}

#[test]
fn lists_on_a_packed_tower(rt: HostRuntime) -> Result<(), Fail> {
    for case in CASES {
        let tower = Floor::over(ground(), Action::Pack(3));
        check_case(&rt, rt.alloc(), tower, case)?;
    }
    Ok(())
}

#[test]
fn lists_on_an_iterated_tower(rt: HostRuntime) -> Result<(), Fail> {
    for case in CASES {
        let tower = Floor::over(ground(), Action::Iterate(4));
        check_case(&rt, rt.alloc(), tower, case)?;
    }
    Ok(())
}

#[test]
fn lists_on_a_pile_of_floors(rt: HostRuntime) -> Result<(), Fail> {
    for case in CASES {
        let packed = Floor::over(ground(), Action::Pack(2));
        let mirrored = Floor::over(packed, Action::Mirror);
        let shifted = Floor::over(mirrored, Action::Shift(1));
        check_case(
            &rt,
            rt.alloc(),
            Floor::over(shifted, Action::Iterate(2)),
            case,
        )?;
    }
    Ok(())
}

#[test]
fn a_table_cannot_go_back(rt: HostRuntime) -> Result<(), Fail> {
    let ground = Ground::over(Table::elementary(110));
    let calls = [Call::Advance(2), Call::Back(1), Call::Advance(1)];
    let mut a = [9; 4];
    let mut b = [9; 4];
    let mut third = [9; 4];
    let simulation = simulate(ground, &[0, 0, 0, 1], &calls, &mut a, &mut b, &mut third)?;
    let refused = simulation
        .refused
        .map(|call| (call.index, call.fault.number()));
    assert_eq!(rt; refused, Some((1, 7)));
    assert_eq!(rt; simulation.told.steps, 3);
    assert_eq!(rt; third, [1, 1, 0, 1]);
    Ok(())
}
