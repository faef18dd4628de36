// Rules given by a table with an entry for every window.
ghost use Rattle.std.specs.Prelude.{◌≡◌, ◌*◌, ◌^◌, ◌<◌, ◌≤◌, true, false, length, take, is_some, if◌then◌else◌, Some, None, MatchResult, nat_le, slice_index};
ghost use Rattle.rings.specs.Line.{tabulate};
ghost use Rattle.rings.specs.Local.{span};
ghost use Rattle.rings.specs.Ring.{Codes, first_stray};
ghost use Rattle.rules.specs.Tables.{entry_index, table, max_entries, interval_fits, table_fits, table_fault, stored, stored_table};
ghost use Rattle.rules.specs.Elementary.{bit, elementary, WolframNumbered};
ghost use Rattle.rules.specs.Kinds.{table_kind};
ghost use Rattle.rules.specs.Windows.{Readable};
ghost use Rattle.rules.specs.TablesLemmas.{table_lawful};

use crate::window::check_window;
use crate::{Rule, RuleFault, Shape};
use rings::{ends_fit, first_stray, interval_width, power_within};

const MAX_TABLE_STATES: u32 = 1024;

const MAX_ENTRIES: usize = 1024;

const ELEMENTARY_ENTRIES: usize = 8;

// A rule by its entries, which stand at the front of the store, an array, as the library uses no heap. None of them is `states` or more.
#[derive(Drop)]
pub struct Table {
    shape: Shape,
    store: [u32; MAX_ENTRIES],
    ghost fits: { table_fits shape.states shape.lo shape.hi ≡ true },
    ghost closed: { is_some (first_stray shape.states (stored shape store)) ≡ false },
}

impl Table {
    // The table with these entries, one for every window.
    pub fn new(states: u32, lo: i32, hi: i32, entries: &[u32]) -> Result<Table, RuleFault>
        ensures answer { MatchResult result (λ t. (table_fault states lo hi entries.now ≡ None) × (stored_table t.shape t.store ≡ table states lo hi entries.now)) (λ e. table_fault states lo hi entries.now ≡ Some e) }
    {
        let shape = Shape { states, lo, hi };
        let count = entry_count(shape).ok_or(RuleFault::OutOfRange)?;
        if entries.len() != count as usize {
            return Err(RuleFault::WrongLength);
        }
        first_stray(entries, states).map_or(Ok(()), |index| Err(RuleFault::BadEntry(index)))?;
        Ok(Table {
            shape,
            store: padded(entries),
        })
    }

    // The elementary automaton of this number, after Wolfram.
    pub fn elementary(number: u8) -> Table
        ensures answer { stored_table result.shape result.store ≡ elementary number }
        ensures law { WolframNumbered number (stored_table result.shape result.store) }
    {
        Table {
            shape: Shape {
                states: 2,
                lo: -1,
                hi: 1,
            },
            store: padded(&bits(number)),
        }
    }

    // The entry for a window of this table.
    fn entry(&self, window: &[u32]) -> u32
        requires { Readable self.now.shape.states (span self.now.shape.lo self.now.shape.hi) window.now }
        ensures { result ≡ slice_index (stored self.now.shape self.now.store) (entry_index self.now.shape.states window.now) }
    {
        self.store[index_of(window, self.shape.states)]
    }
}

impl Rule for Table {
    const KIND: u16 = 0x0010;

    ghost KIND = { table_kind };

    ghost meaning = { λ t. stored_table t.shape t.store };

    ghost lawful = { λ x. table_lawful x.shape x.store x.fits x.closed };

    fn shape(&self) -> Shape {
        self.shape
    }

    fn inverse(&self) -> Option<(i32, i32)> {
        None
    }

    fn next(&self, window: &[u32]) -> Result<u32, RuleFault> {
        let Shape { states, lo, hi } = self.shape;
        check_window(window, states, interval_width(lo, hi))?;
        Ok(self.entry(window))
    }

    fn previous(&self, _window: &[u32]) -> Result<u32, RuleFault> {
        Err(RuleFault::NoInverse)
    }
}

// How many entries a table of this shape has, if its sizes are in their ranges.
fn entry_count(shape: Shape) -> Option<u32>
    ensures { result ≡ (if table_fits shape.states shape.lo shape.hi then Some (shape.states ^ span shape.lo shape.hi) else None) }
{
    let Shape { states, lo, hi } = shape;
    if !(1..=MAX_TABLE_STATES).contains(&states) || !interval_fits(lo, hi) {
        return None;
    }
    power_within(states, interval_width(lo, hi) as u32, MAX_ENTRIES as u32)
}

// Whether an interval is that of a rule.
fn interval_fits(lo: i32, hi: i32) -> bool
    ensures { result ≡ interval_fits lo hi }
{
    lo <= hi && ends_fit(lo, hi)
}

// The entries at the front of a store.
fn padded(entries: &[u32]) -> [u32; MAX_ENTRIES]
    requires { length entries.now ≤ max_entries }
    ensures { take (length entries.now) result ≡ entries.now }
{
    let count = entries.len();
    let mut store = [0; MAX_ENTRIES];
    store[..count].copy_from_slice(entries);
    store
}

// The bits of a number, the lowest first.
fn bits(number: u8) -> [u32; ELEMENTARY_ENTRIES]
    ensures { result ≡ tabulate (bit number) 8 }
{
    std::array::from_fn(|i| u32::from(number >> i) % 2)
}

// The index of the entry for a window.
fn index_of(window: &[u32], states: u32) -> usize
    requires { (Codes states window.now) × ((1 ≤ states) × (states ^ length window.now ≤ max_entries)) }
    ensures { result ≡ entry_index states window.now }
{
    let mut index = 0;
    for code in window {
        index = index * states as usize + *code as usize;
    }
    index
}
