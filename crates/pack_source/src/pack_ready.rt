// What a pack answers from what it has noted.
ghost use Rattle.std.specs.Prelude.{◌≡◌, ◌&&◌, not, map, ◌+◌, ◌≤◌, eqb, ltb, take};
ghost use Rattle.rules.specs.Operators.{ended_count, pack_ready};
ghost use Rattle.inlet_set.specs.InletSet.{set_of};
ghost use Rattle.operator.specs.Answer.{ready_of};
ghost use Rattle.queue.specs.Seen.{seen_of};
ghost use Rattle.pack_source.specs.Pack.{seen_in};
ghost use Rattle.pack_source.specs.PackReady.{test_of, tested};

use crate::pack::PackSource;
use inlet_set::InletSet;
use operator::{SourceBlocked, SourceReady};
use queue::Seen;
use queue::seen::has_ended;

// The error 'fields ended at different rows'.
#[derive(Clone, Copy, PartialEq, Eq)]
pub struct EndedApart;

// How many of the first n have ended.
fn ended_of(shown: [Seen; 4], n: usize) -> usize
    requires { n ≤ 4 }
    ensures { result ≡ ended_count (map seen_of (take n shown)) }
{
    let mut count = 0;
    for i in 0..n {
        count += usize::from(has_ended(shown[i]));
    }
    count
}

// Some have ended, and not all the others wait.
fn apart(ended: usize, waits: usize, n: usize) -> bool
    requires { ended + waits ≤ 27 }
    ensures { result ≡ (ltb 0 ended && not (eqb (ended + waits) n)) }
{
    ended > 0 && ended + waits != n
}

// It blocks on the newest, and is ready where nothing waits.
pub fn on_newest(waiting: InletSet) -> SourceReady
    ensures { ready_of result ≡ pack_ready (set_of waiting) }
{
    match waiting.last() {
        Some(i) => SourceReady::Blocked(SourceBlocked::Inlet(i)),
        None => SourceReady::Ready,
    }
}

impl PackSource {
    // How many inlets have ended.
    pub fn ended_count(self) -> usize
        ensures { result ≡ ended_count (seen_in self) }
    {
        ended_of(self.shown, self.len())
    }

    // It waits for the newest in its waiting set, and is ready where that is empty.
    pub fn ready(self) -> Result<SourceReady, EndedApart>
        ensures { test_of result ≡ tested (seen_in self) (set_of self.waiting) }
    {
        if apart(self.ended_count(), self.waiting.len(), self.len()) {
            return Err(EndedApart);
        }
        Ok(on_newest(self.waiting))
    }
}
