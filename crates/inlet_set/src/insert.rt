// A number joins a set.
ghost use Rattle.std.specs.Result.{is_ok};
ghost use Rattle.numbers.specs.Opt.{either_of};
ghost use Rattle.inlet_set.specs.Insert.{Insert};

use crate::set::InletSet;

impl InletSet {
    // The number is now the newest, unless it was there. Refused, with the set as it was, are a number from 23 on, and one that is new to a
    // set of 23.
    pub(crate) fn insert(self, inlet: u8) -> Result<InletSet, InletSet>
        ensures { Insert inlet self (is_ok result) (either_of result) }
    {
        if inlet >= 23 {
            return Err(self);
        }
        if self.has(inlet) {
            return Ok(self);
        }
        let n = self.len();
        if n >= 23 {
            return Err(self);
        }
        let mut s = self;
        s.indices[n] = inlet;
        s.len = n + 1;
        Ok(s)
    }
}
