// A number leaves a set.
ghost use Rattle.std.specs.Prelude.{◌≡◌};
ghost use Rattle.rules.specs.InletSet.{remove};
ghost use Rattle.inlet_set.specs.InletSet.{set_of};

use crate::set::{InletSet, find};

impl InletSet {
    // The newest number takes the place of the one that goes. A number that is not there changes nothing.
    pub(crate) fn remove(self, inlet: u8) -> InletSet
        ensures { set_of result ≡ remove inlet (set_of self) }
    {
        let n = self.len();
        let Some(k) = find(self.indices, n, inlet) else {
            return self;
        };
        let last = n - 1;
        let mut s = self;
        s.indices[k] = self.indices[last];
        s.len = last;
        s
    }
}
