// What runs refuse, and that a refused call leaves everything as it was.
use floors::{Action, Floor};
use rules::Table;
use runs::{Call, Holder, Run, RunFault, simulate};
use std::test::Fail;
use towers::Ground;

const RING: [u32; 4] = [0, 0, 0, 1];

// Rule 110 on blocks of two cells.
fn packed() -> Floor<Ground<Table>> {
    Floor::over(Ground::over(Table::elementary(110)), Action::Pack(2))
}

// The number and the place of a refusal, if there is one.
fn refusal(answer: Result<(), RunFault>) -> Option<(u16, usize)> {
    answer.err().map(|fault| (fault.number(), fault.place()))
}

#[test]
fn a_run_is_not_made_of_a_bad_ring(rt: HostRuntime) -> Result<(), Fail> {
    let mut a = [9; 2];
    let b = [9; 2];
    for (ring, number, place) in [
        (&[][..], 1, 0),
        (&[0, 0, 1][..], 3, 0),
        (&[0, 2, 0, 0][..], 4, 1),
        (&[0, 0, 0, 0, 0, 0][..], 5, 0),
    ] {
        let refused = Run::make(packed(), ring, &mut a, &b).err().ok_or("made")?;
        assert_eq!(rt; refused.fault.number(), number);
        assert_eq!(rt; refused.fault.place(), place);
        assert_eq!(rt; a, [9, 9]);
    }
    Ok(())
}

#[test]
fn the_shorter_buffer_counts(rt: HostRuntime) -> Result<(), Fail> {
    let mut a = [9; 2];
    let b = [9; 1];
    let refused = Run::make(packed(), &RING, &mut a, &b).err().ok_or("made")?;
    assert_eq!(rt; refused.fault.number(), 5);
    assert_eq!(rt; a, [9, 9]);
    Ok(())
}

#[test]
fn a_short_third_buffer_is_refused_first(rt: HostRuntime) -> Result<(), Fail> {
    let mut a = [9; 2];
    let mut b = [9; 2];
    let mut third = [9; 3];
    let calls = [Call::Advance(1)];
    let refused = simulate(packed(), &RING, &calls, &mut a, &mut b, &mut third)
        .err()
        .ok_or("simulated")?;
    assert_eq!(rt; refused.fault.number(), 5);
    assert_eq!(rt; a, [9, 9]);
    assert_eq!(rt; b, [9, 9]);
    assert_eq!(rt; third, [9, 9, 9]);
    Ok(())
}

#[test]
fn a_refused_call_changes_nothing(rt: HostRuntime) -> Result<(), Fail> {
    let mut a = [9; 3];
    let mut b = [9; 3];
    let mut third = [9; 5];
    let mut short = [9; 1];
    let mut run = Run::make(packed(), &RING, &mut a, &b)?;
    assert_eq!(rt; a, [0, 2, 9]);
    run.advance(1, &mut a, &mut b)?;
    assert_eq!(rt; refusal(run.advance(65_537, &mut a, &mut b)), Some((6, 0)));
    assert_eq!(rt; refusal(run.back(1, &mut a, &mut b)), Some((7, 0)));
    assert_eq!(rt; refusal(run.advance(1, &mut short, &mut b)), Some((5, 0)));
    assert_eq!(rt; refusal(run.read(&a, &b, &mut short)), Some((5, 0)));
    let told = run.tell();
    assert_eq!(rt; told.cells, 2);
    assert_eq!(rt; told.steps, 1);
    assert_eq!(rt; told.holder, Holder::B);
    run.read(&a, &b, &mut third)?;
    assert_eq!(rt; third, [0, 0, 1, 1, 9]);
    Ok(())
}

#[test]
fn a_code_that_is_no_state_is_told(rt: HostRuntime) -> Result<(), Fail> {
    let mut a = [9; 2];
    let mut b = [9; 2];
    let mut third = [9; 4];
    let mut run = Run::make(packed(), &RING, &mut a, &b)?;
    a[1] = 4;
    assert_eq!(rt; refusal(run.advance(1, &mut a, &mut b)), Some((4, 1)));
    assert_eq!(rt; refusal(run.read(&a, &b, &mut third)), Some((4, 1)));
    assert_eq!(rt; run.present(&a, &b)?.len(), 2);
    a[1] = 2;
    run.advance(1, &mut a, &mut b)?;
    run.read(&a, &b, &mut third)?;
    assert_eq!(rt; third, [0, 0, 1, 1]);
    Ok(())
}

#[test]
fn the_largest_count_is_accepted(rt: HostRuntime) -> Result<(), Fail> {
    let ground = Ground::over(Table::new(2, 0, 0, &[1, 0])?);
    let mut a = [9; 1];
    let mut b = [9; 1];
    let mut run = Run::make(ground, &[0], &mut a, &b)?;
    assert_eq!(rt; refusal(run.advance(65_537, &mut a, &mut b)), Some((6, 0)));
    run.advance(65_536, &mut a, &mut b)?;
    run.advance(1, &mut a, &mut b)?;
    assert_eq!(rt; run.tell().steps, 65_537);
    assert!(rt; run.present(&a, &b)? == [1].as_slice());
    assert_eq!(rt; a, [0]);
    Ok(())
}
