// The source that joins the rows of its inlets, and what it notes of them.
ghost use Rattle.std.specs.Prelude.{◌≡◌, min, length};
ghost use Rattle.queue.specs.Seen.{seen_of};
ghost use Rattle.pack_source.specs.Pack.{seen_in, view_of, fresh, Notes, Observes};

use crate::waiting::{with, without};
use inlet_set::InletSet;
use queue::Seen;

// kept: an array and how many of it count, since there is no heap.
// What the inlets last showed: the first `len` of the entries count, at most 4. `waiting`: the inlets that last showed nothing to take yet.
#[derive(Clone, Copy)]
pub struct PackSource {
    pub shown: [Seen; 4],
    pub len: usize,
    pub waiting: InletSet,
}

// The source with an inlet in the waiting set that waits, and without another; as it was, where there is no place.
fn noted(pack: PackSource, inlet: u8, seen: Seen) -> Result<PackSource, PackSource>
    ensures { Notes (seen_of seen) inlet pack result }
{
    match seen {
        Seen::Waiting => with(pack, inlet),
        Seen::Ready | Seen::Ended => Ok(without(pack, inlet)),
    }
}

impl PackSource {
    // All of n inlets wait; of 4 where n is more.
    pub fn new(n: usize) -> PackSource
        ensures { view_of result ≡ fresh (min n 4) }
    {
        let len = n.min(4);
        PackSource {
            shown: [Seen::Waiting; 4],
            len,
            waiting: InletSet::all(len),
        }
    }

    // How many inlets it has.
    pub fn len(self) -> usize
        ensures { result ≡ length (seen_in self) }
    {
        self.len.min(4)
    }

    // What an inlet shows is noted. Refused, with the source as it was, are an inlet that it does not have, and one that waits where the set is
    // full of others.
    pub fn observe(self, inlet: u8, seen: Seen) -> Result<PackSource, PackSource>
        ensures { Observes self inlet (seen_of seen) result }
    {
        let k = usize::from(inlet);
        if k >= self.len() {
            return Err(self);
        }
        let mut p = noted(self, inlet, seen)?;
        p.shown[k] = seen;
        Ok(p)
    }
}
