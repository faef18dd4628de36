// Encoding a bottom ring as a top ring, and decoding a top ring.
ghost use Rattle.std.specs.Prelude.{◌≡◌, ◌*◌, ◌^◌, ◌<◌, ◌≤◌, length};
ghost use Rattle.rings.specs.Ring.{Ring, first_stray, rotate};
ghost use Rattle.rings.specs.Refusals.{outcome};
ghost use Rattle.towers.specs.Towers.{Fitting};
ghost use Rattle.towers.specs.Numbers.{Standing};
ghost use Rattle.towers.specs.Encodings.{encode_fault, encode_answer, encode_buffer, decode_fault, decode_answer, decode_buffer, rotated_answer, rotated_buffer, stray_or_short, Simulates};

use crate::{Numbers, Tower, TowerFault};
use rings::{MAX_CELLS, cell_at};
use rules::{RuleFault, check_codes, check_length};

// Writes the encoding of a bottom ring into the first cells of a buffer.
pub fn encode<T: Tower>(tower: &T, ring: &[u32], buffer: &mut [u32]) -> Result<(), TowerFault>
    ensures answer { result ≡ encode_answer (T.Tower.tower tower.now) ring.now buffer.old }
    ensures buffer { buffer.new ≡ encode_buffer (T.Tower.tower tower.now) ring.now buffer.old }
    ensures laws { Standing (T.Tower.tower tower.now) }
    ensures simulates { Simulates (T.Tower.tower tower.now) }
{
    let numbers = tower.numbers();
    check_bottom(numbers, ring, buffer.len())?;
    let cells = &mut buffer[..ring.len() / numbers.block as usize];
    write_encoded(tower, numbers.bottom, ring, cells);
    Ok(())
}

// Writes the decoding of a top ring into the first cells of a buffer.
pub fn decode<T: Tower>(tower: &T, ring: &[u32], buffer: &mut [u32]) -> Result<(), TowerFault>
    ensures answer { result ≡ decode_answer (T.Tower.tower tower.now) ring.now buffer.old }
    ensures buffer { buffer.new ≡ decode_buffer (T.Tower.tower tower.now) ring.now buffer.old }
    ensures laws { Standing (T.Tower.tower tower.now) }
    ensures simulates { Simulates (T.Tower.tower tower.now) }
{
    let numbers = tower.numbers();
    check_top(numbers, ring, buffer.len())?;
    let cells = &mut buffer[..ring.len() * numbers.block as usize];
    write_decoded(tower, numbers.bottom, ring, cells);
    Ok(())
}

// Writes the decoding of a top ring of any length, turned by `rotation` cells, into the first cells of a buffer.
pub fn decode_rotated<T: Tower>(
    tower: &T,
    ring: &[u32],
    rotation: i64,
    buffer: &mut [u32],
) -> Result<(), TowerFault>
    ensures answer { result ≡ rotated_answer (T.Tower.tower tower.now) ring.now buffer.old }
    ensures buffer { buffer.new ≡ rotated_buffer (T.Tower.tower tower.now) ring.now rotation buffer.old }
{
    let numbers = tower.numbers();
    let block = numbers.block as usize;
    if ring.is_empty() {
        return Err(TowerFault::Rule(RuleFault::EmptyRing));
    }
    check_cells(ring, numbers.states, ring.len(), buffer.len() / block)?;
    let cells = &mut buffer[..ring.len() * block];
    write_decoded(tower, numbers.bottom, ring, cells);
    rotate_cells(rotation, cells);
    Ok(())
}

// Turns a ring by this many cells.
fn rotate_cells(rotation: i64, ring: &mut [u32])
    requires { 1 ≤ length ring.old }
    ensures { ring.new ≡ rotate rotation ring.old }
{
    ring.rotate_left(cell_at(rotation, ring.len()).unwrap());
}

// Refuses a bottom ring that a tower with these numbers does not encode into a buffer of `room` cells.
fn check_bottom(numbers: Numbers, ring: &[u32], room: usize) -> Result<(), TowerFault>
    requires { 1 ≤ numbers.block }
    ensures { result ≡ outcome (encode_fault numbers.bottom numbers.block ring.now room) }
{
    let block = numbers.block as usize;
    check_length(ring, MAX_CELLS)?;
    if ring.len() % block != 0 {
        return Err(TowerFault::Ragged);
    }
    check_cells(ring, numbers.bottom, ring.len() / block, room)
}

// Refuses a top ring that a tower with these numbers does not decode into a buffer of `room` cells.
fn check_top(numbers: Numbers, ring: &[u32], room: usize) -> Result<(), TowerFault>
    requires { 1 ≤ numbers.block }
    ensures { result ≡ outcome (decode_fault numbers.states numbers.block ring.now room) }
{
    let block = numbers.block as usize;
    check_length(ring, MAX_CELLS / block)?;
    check_cells(ring, numbers.states, ring.len() * block, room)
}

// Refuses a ring with a stray code, and then a buffer of `room` cells that has fewer than `cells`.
fn check_cells(ring: &[u32], states: u32, cells: usize, room: usize) -> Result<(), TowerFault>
    ensures { result ≡ outcome (stray_or_short (first_stray states ring.now) cells room) }
{
    check_codes(ring, states)?;
    if room < cells {
        return Err(TowerFault::Rule(RuleFault::ShortBuffer));
    }
    Ok(())
}

// Writes the encoding of a ring that is known to be good.
fn write_encoded<T: Tower>(tower: &T, states: u32, ring: &[u32], cells: &mut [u32])
    requires states { states ≡ (T.Tower.tower tower.now).bottom.states }
    requires fitting { Fitting (T.Tower.tower tower.now) (length cells.old) ring.now }
    ensures { cells.new ≡ (T.Tower.tower tower.now).encode ring.now }
{
    cells.fill(0);
    for (j, code) in ring.iter().enumerate() {
        let place = tower.place(ring.len(), j).unwrap();
        cells[place.cell] += *code * states.pow(place.digit as u32);
    }
}

// Writes the decoding of a ring that is known to be good.
fn write_decoded<T: Tower>(tower: &T, states: u32, ring: &[u32], cells: &mut [u32])
    requires states { states ≡ (T.Tower.tower tower.now).bottom.states }
    requires good { Ring (T.Tower.tower tower.now).top.states ring.now }
    requires size { length cells.old ≡ length ring.now * (T.Tower.tower tower.now).block }
    ensures { cells.new ≡ (T.Tower.tower tower.now).decode ring.now }
{
    let n = cells.len();
    for (j, cell) in cells.iter_mut().enumerate() {
        let place = tower.place(n, j).unwrap();
        *cell = ring[place.cell] / states.pow(place.digit as u32) % states;
    }
}
