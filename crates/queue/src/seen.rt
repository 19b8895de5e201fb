// What a reader sees of a port.
ghost use Rattle.std.specs.Prelude.{◌≡◌};
ghost use Rattle.rules.specs.Operators.{is_ended};
ghost use Rattle.queue.specs.Seen.{seen_of};

// Nothing to take yet, a batch to take, or nothing any more.
#[derive(Clone, Copy, PartialEq, Eq)]
pub enum Seen {
    Waiting,
    Ready,
    Ended,
}

// Closed and empty: an inlet that is merely empty waits.
pub fn has_ended(seen: Seen) -> bool
    ensures { result ≡ is_ended (seen_of seen) }
{
    seen == Seen::Ended
}
