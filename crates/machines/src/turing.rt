// A Turing machine as a rule: a cell has a symbol, and there may be a head on it.
ghost use Rattle.std.specs.Prelude.{◌≡◌, true, false, MatchResult};
ghost use Rattle.rings.specs.Refusals.{outcome};
ghost use Rattle.rules.specs.declared.fault.RuleFault.TheVariants.{OutOfRange};
ghost use Rattle.machines.specs.Sizes.{machine_fits};
ghost use Rattle.machines.specs.Turing.{StepsAsItsMachine, symbol_of, acts, written, moving, turing};
ghost use Rattle.machines.specs.Drawings.{draw_fault, draw_answer, draw_buffer};
ghost use Rattle.machines.specs.Worked.{WorkedRings};
ghost use Rattle.machines.specs.Transitions.{turing_kind, listed, new_list, Idles, transition_of, enter_answer, enter_list, Enters};
ghost use Rattle.machines.specs.Views.{machine_of, configuration_of, IsCode};
ghost use Rattle.machines.specs.ViewsLemmas.{machine_lawful};

use crate::sizes::Sizes;
use crate::transition::Transitions;
use crate::{Configuration, Move, Transition, Turing};
use rings::first_stray;
use rules::{Rule, RuleFault, Shape, check_window};

const WIDTH: usize = 3;

// A cell of a ring: its symbol, and the transition that the head on it makes, if there is a head.
#[derive(Clone, Copy)]
struct Cell {
    symbol: u32,
    transition: Option<Transition>,
}

impl Cell {
    // The next symbol of the cell.
    fn next_symbol(self) -> u32
        ensures { result ≡ written self.symbol self.transition }
    {
        self.transition
            .map_or(self.symbol, |transition| transition.write)
    }

    // The next state of the head on the cell, if there is a head and it makes this move.
    fn head_leaving(self, step: Move) -> Option<u32>
        ensures { result ≡ moving step self.transition }
    {
        self.transition
            .filter(|transition| transition.step == step)
            .map(|transition| transition.next)
    }
}

impl Turing {
    // A machine that writes what it reads, stays and keeps its state.
    pub fn new(symbols: u32, heads: u32) -> Result<Turing, RuleFault>
        ensures answer { MatchResult result (λ t. (machine_fits symbols heads ≡ true) × (t.sizes.symbols ≡ symbols) × (t.sizes.heads ≡ heads) × (t.transitions.list ≡ new_list symbols heads)) (λ e. (machine_fits symbols heads ≡ false) × (e ≡ OutOfRange)) }
        ensures law { machine_fits symbols heads ≡ true → Idles (listed symbols heads (new_list symbols heads)) }
        ensures worked { WorkedRings }
    {
        let sizes = Sizes::new(symbols, heads).ok_or(RuleFault::OutOfRange)?;
        Ok(Turing {
            sizes,
            transitions: Transitions::idle(sizes),
        })
    }

    // Enters a transition at its index, state × symbols + symbol, by the three numbers that files hold: the symbol to write, the move
    // and the next state.
    pub fn enter(&mut self, index: usize, write: u32, step: u32, next: u32) -> Result<(), RuleFault>
        ensures answer { let s = self.old.sizes in result ≡ enter_answer s.symbols s.heads index (transition_of s.symbols s.heads write step next) }
        ensures sizes { self.new.sizes ≡ self.old.sizes }
        ensures list { let s = self.old.sizes in self.new.transitions.list ≡ enter_list s.symbols s.heads index (transition_of s.symbols s.heads write step next) self.old.transitions.list }
        ensures law { let s = self.old.sizes in Enters s.symbols s.heads index (transition_of s.symbols s.heads write step next) self.old.transitions.list }
    {
        if index >= self.sizes.transition_count() as usize {
            return Err(RuleFault::OutOfRange);
        }
        let transition = self
            .sizes
            .transition_from(write, step, next)
            .ok_or(RuleFault::BadEntry(index))?;
        self.transitions.put(index, transition);
        Ok(())
    }

    // Writes the ring of a configuration into the first cells of a buffer.
    pub fn draw(
        &self,
        configuration: Configuration<'_>,
        buffer: &mut [u32],
    ) -> Result<(), RuleFault>
        ensures answer { result ≡ draw_answer (machine_of self.now) (configuration_of configuration.entry) buffer.old }
        ensures buffer { buffer.new ≡ draw_buffer (machine_of self.now) (configuration_of configuration.entry) buffer.old }
        ensures law { StepsAsItsMachine (machine_of self.now) }
    {
        self.check_drawing(configuration, buffer.len())?;
        let Configuration {
            tape,
            position,
            state,
        } = configuration;
        // the code of a cell without the head is its symbol
        buffer[..tape.len()].copy_from_slice(tape);
        buffer[position] = self.sizes.code_of(tape[position], Some(state));
        Ok(())
    }

    // Refuses a configuration that is not drawn into a buffer of `room` cells.
    fn check_drawing(&self, configuration: Configuration<'_>, room: usize) -> Result<(), RuleFault>
        ensures { result ≡ outcome (draw_fault (machine_of self.now) (configuration_of configuration.entry) room) }
    {
        let Configuration {
            tape,
            position,
            state,
        } = configuration;
        if tape.is_empty() {
            return Err(RuleFault::EmptyRing);
        }
        if position >= tape.len() || state >= self.sizes.heads {
            return Err(RuleFault::OutOfRange);
        }
        first_stray(tape, self.sizes.symbols).map_or(
            Ok(()),
            |index| Err(RuleFault::BadEntry(index)),
        )?;
        if room < tape.len() {
            return Err(RuleFault::ShortBuffer);
        }
        Ok(())
    }

    // The cell with this code. Without a head the code is the symbol, told with no division; the code of a head's cell is greater by
    // the number of symbols than the index of the transition.
    fn cell(&self, code: u32) -> Cell
        requires { IsCode self.now code }
        ensures symbol { result.symbol ≡ symbol_of self.now.sizes.symbols code }
        ensures transition { result.transition ≡ acts (machine_of self.now) code }
    {
        let index = code.checked_sub(self.sizes.symbols);
        Cell {
            symbol: if code < self.sizes.symbols {
                code
            } else {
                code % self.sizes.symbols
            },
            transition: index.map(|index| self.transitions.list[index as usize]),
        }
    }
}

impl Rule for Turing {
    const KIND: u16 = 0x0012;

    ghost KIND = { turing_kind };

    ghost meaning = { λ t. turing (machine_of t) };

    ghost lawful = { machine_lawful };

    fn shape(&self) -> Shape {
        Shape {
            states: self.sizes.code_count(),
            lo: -1,
            hi: 1,
        }
    }

    fn inverse(&self) -> Option<(i32, i32)> {
        None // whatever its transitions are
    }

    fn next(&self, window: &[u32]) -> Result<u32, RuleFault> {
        check_window(window, self.sizes.code_count(), WIDTH)?;
        let left = self.cell(window[0]);
        let own = self.cell(window[1]);
        let right = self.cell(window[2]);
        let head = left
            .head_leaving(Move::Right)
            .or_else(|| own.head_leaving(Move::Stay))
            .or_else(|| right.head_leaving(Move::Left));
        Ok(self.sizes.code_of(own.next_symbol(), head))
    }

    fn previous(&self, _window: &[u32]) -> Result<u32, RuleFault> {
        Err(RuleFault::NoInverse)
    }
}
