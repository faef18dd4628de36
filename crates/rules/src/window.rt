// What every rule checks of a ring and of a window.
ghost use Rattle.std.specs.Prelude.{◌≡◌, length};
ghost use Rattle.rings.specs.Refusals.{outcome};
ghost use Rattle.rings.specs.Ring.{first_stray};
ghost use Rattle.rules.specs.Answers.{length_fault, checked, unless_stray};

use crate::RuleFault;
use rings::first_stray;

// Refuses a ring of no cell, and then one of more cells than `most`.
pub fn check_length(ring: &[u32], most: usize) -> Result<(), RuleFault>
    ensures answer { result ≡ outcome (length_fault most (length ring.now)) }
{
    if ring.is_empty() {
        return Err(RuleFault::EmptyRing);
    }
    if ring.len() > most {
        return Err(RuleFault::LongRing);
    }
    Ok(())
}

// Refuses cells with a stray code.
pub fn check_codes(cells: &[u32], states: u32) -> Result<(), RuleFault>
    ensures answer { result ≡ unless_stray (first_stray states cells.now) tt }
{
    first_stray(cells, states).map_or(Ok(()), |index| Err(RuleFault::StrayCode(index)))
}

// Refuses a window that has not `width` cells, and then one with a stray code.
pub fn check_window(window: &[u32], states: u32, width: usize) -> Result<(), RuleFault>
    ensures answer { result ≡ checked states width window.now tt }
{
    if window.len() != width {
        return Err(RuleFault::WrongLength);
    }
    check_codes(window, states)
}
