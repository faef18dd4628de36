// Lists of calls on a run, whose buffers are the caller's here too.
ghost use Rattle.std.specs.Prelude.{◌≡◌, length};
ghost use Rattle.rings.specs.Refusals.{outcome};
ghost use Rattle.runs.specs.Calls.{call_fault, called, called_third, performed, performed_third, first_refused};
ghost use Rattle.runs.specs.Laws.{PerformLaw};
ghost use Rattle.runs.specs.Views.{state_of, InState};

use crate::{Call, RefusedCall, Run, RunFault};
use towers::Tower;

impl<T: Tower> Run<T> {
    // Does the calls of a list one after the other, refused ones too, and tells the first that was refused.
    pub fn perform(
        &mut self,
        calls: &[Call],
        a: &mut [u32],
        b: &mut [u32],
        third: &mut [u32],
    ) -> Option<RefusedCall>
        ensures answer { result ≡ first_refused (T.Tower.tower self.old.tower) 0 calls.now (state_of self.old a.old b.old) (length third.old) }
        ensures state { InState self.new a.new b.new self.old.tower (performed (T.Tower.tower self.old.tower) calls.now (state_of self.old a.old b.old)) }
        ensures third { third.new ≡ performed_third (T.Tower.tower self.old.tower) calls.now (state_of self.old a.old b.old) third.old }
        ensures law { PerformLaw (T.Tower.tower self.old.tower) calls.now (state_of self.old a.old b.old) (state_of self.new a.new b.new) (length third.old) result }
    {
        let mut refused = None;
        for (index, call) in calls.iter().enumerate() {
            if let Err(fault) = self.perform_call(*call, a, b, third) {
                refused.get_or_insert(RefusedCall { index, fault });
            }
        }
        refused
    }

    // Does one call.
    fn perform_call(
        &mut self,
        call: Call,
        a: &mut [u32],
        b: &mut [u32],
        third: &mut [u32],
    ) -> Result<(), RunFault>
        ensures answer { result ≡ outcome (call_fault (T.Tower.tower self.old.tower) call (state_of self.old a.old b.old) (length third.old)) }
        ensures state { InState self.new a.new b.new self.old.tower (called (T.Tower.tower self.old.tower) call (state_of self.old a.old b.old)) }
        ensures third { third.new ≡ called_third (T.Tower.tower self.old.tower) call (state_of self.old a.old b.old) third.old }
    {
        match call {
            Call::Advance(count) => self.advance(count, a, b),
            Call::Back(count) => self.back(count, a, b),
            Call::Read => self.read(a, b, third),
            Call::Present => self.present(a, b).map(|_| ()),
            Call::Tell => Ok(()),
        }
    }
}
