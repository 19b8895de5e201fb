// The Rust's operators/concat.rs: the source that emits its inlets one after another, and so joins the bags of a core downwards. It stands at one
// inlet, passes those that have ended, and blocks on one that is merely empty: an inlet without batches has not ended while its writer lives.
// The walk past ended inlets reads the state, so it is in `source_steps`; here is what is said at an inlet.
#![tactic(auto)]

ghost use Rattle.std.specs.Prelude.{◌≡◌};
ghost use Rattle.queue.specs.Seen.{seen_of};
ghost use Rattle.operator.specs.Answer.{ready_of};
ghost use Rattle.concat_source.specs.Concat.{at_inlet};

use operator::{SourceBlocked, SourceReady};
use queue::Seen;

// The inlet that is emitted: those before it have ended.
#[derive(Clone, Copy)]
pub struct ConcatSource {
    pub current: u8,
}

// What it says at an inlet.
pub fn at_inlet(seen: Seen, inlet: u8) -> SourceReady
    ensures { ready_of result ≡ at_inlet (seen_of seen) inlet }
{
    match seen {
        Seen::Waiting => SourceReady::Blocked(SourceBlocked::Inlet(inlet)),
        Seen::Ready | Seen::Ended => SourceReady::Ready,
    }
}
