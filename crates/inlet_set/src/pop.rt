// The numbers of a set, by the time of their insertion.
ghost use Rattle.std.specs.Prelude.{◌≡◌, reverse};
ghost use Rattle.std.proofs.Math.ListN.{get_elem?};
ghost use Rattle.numbers.specs.Opt.{option_of};
ghost use Rattle.inlet_set.specs.InletSet.{set_of};
ghost use Rattle.inlet_set.specs.Pop.{Pop};

use crate::set::InletSet;

impl InletSet {
    // The newest.
    pub fn last(self) -> Option<u8>
        ensures { option_of result ≡ get_elem? (set_of self) 0 }
    {
        let n = self.len();
        if n == 0 {
            None
        } else {
            Some(self.indices[n - 1])
        }
    }

    // The newest, and the set without it.
    pub(crate) fn pop(self) -> (Option<u8>, InletSet)
        ensures { Pop self result.0 result.1 }
    {
        let len = self.len().saturating_sub(1);
        (self.last(), InletSet { len, ..self })
    }

    // Number k, counted from the oldest.
    pub fn get(self, k: usize) -> Option<u8>
        ensures { option_of result ≡ get_elem? (reverse (set_of self)) k }
    {
        if k < self.len() {
            Some(self.indices[k])
        } else {
            None
        }
    }
}
