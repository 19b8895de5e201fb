// A shared port has no limit, and holds its whole segment or nothing: one byte says whether this one batch is there.
ghost use Rattle.std.specs.Prelude.{◌≡◌, not, [], ◌∷◌, ◌+◌, ◌-◌, ◌/◌, eqb, get_or, set};
ghost use Rattle.rules.specs.Table.{is_empty};
ghost use Rattle.rules.specs.Machine.{queue_at, set_queue};
ghost use Rattle.layout.specs.Numbers.{flag, mark};
ghost use Rattle.tables.specs.Change.{Becomes};
ghost use Rattle.tables.specs.View.{view};
ghost use Rattle.table_ports.specs.Shares.{whole_batch, share_ring};

use queue::Queue;
use tables::{SharedPortIndex, StateBytes};

pub(crate) const SHARES: usize = 17631;

// The queue of port x.
fn load_share(s: &StateBytes, x: SharedPortIndex) -> Queue
    ensures { result ≡ share_ring (flag (get_or s.now (17631 + (x.at - 72)) 0)) }
{
    let there = s[SHARES + (x.at - 72)] != 0;
    Queue {
        head: 0,
        count: u8::from(there),
        capacity: Queue::NO_LIMIT,
    }
}

// Another queue of port x.
fn store_share(s: &mut StateBytes, x: SharedPortIndex, q: Queue)
    ensures { s.new ≡ set s.old (17631 + (x.at - 72)) (mark (not (eqb q.count 0))) }
{
    s[SHARES + (x.at - 72)] = u8::from(!q.is_empty());
}

// Whether the batch waits in the port.
pub fn is_full(s: &StateBytes, x: SharedPortIndex) -> bool
    ensures { result ≡ not (is_empty (queue_at (view s.now) x.at)) }
{
    !load_share(s, x).is_empty()
}

// The whole segment of the port's leaf waits in it.
pub fn fill_share(s: &mut StateBytes, x: SharedPortIndex)
    ensures { Becomes (λ m. set_queue x.at (whole_batch m.job ((x.at - 72) / 16) ∷ []) m) s.old s.new }
{
    let q = load_share(s, x);
    store_share(s, x, q.pushed());
}

// Nothing waits in the port: its queue is a fresh one.
pub fn clear_share(s: &mut StateBytes, x: SharedPortIndex)
    ensures { Becomes (set_queue x.at []) s.old s.new }
{
    store_share(s, x, Queue::new(Queue::NO_LIMIT));
}
