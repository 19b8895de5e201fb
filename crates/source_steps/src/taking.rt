// Rows taken of a port.
ghost use Rattle.std.specs.Prelude.{◌≡◌, true, ◌≤◌, ◌<◌, length};
ghost use Rattle.rules.specs.Port.{taken};
ghost use Rattle.rules.specs.Machine.{queue_at, set_queue};
ghost use Rattle.rules.specs.Drive.{take_front, front_of};
ghost use Rattle.batches.specs.Batch.{batch_of, fits};
ghost use Rattle.table_ports.specs.Shares.{whole_batch};
ghost use Rattle.operator.specs.Answer.{step_of, width_of};
ghost use Rattle.tables.specs.Change.{Becomes};
ghost use Rattle.tables.specs.View.{view};

use batches::{Batch, SegmentId};
use operator::Step;
use tables::{PortIndex, SharedPortIndex, SlotPortIndex, StateBytes};

// The front batch of a bounded port.
fn take_bounded(s: &mut StateBytes, x: SlotPortIndex) -> Step
    ensures result_value { step_of result ≡ (take_front x.at (queue_at (view s.old) x.at) (view s.old)).0 }
    ensures width_bound { width_of result ≤ 4 }
    ensures becomes { Becomes (λ m. (take_front x.at (queue_at m x.at) m).1) s.old s.new }
{
    if table_ports::queues::queue_len(s, x) == 0 {
        table_lists::causes::fault_if(s, true);
        return Step::End;
    }
    let b = table_ports::queues::batch_at(s, x, 0);
    table_ports::queues::pop_batch(s, x);
    Step::Final(b.trimmed())
}

// The whole segment of a leaf.
fn whole(s: &StateBytes, l: usize) -> Batch
    ensures { batch_of result ≡ whole_batch (view s.now).job l }
{
    let x = table_job::nodes::load_node(s, l);
    Batch::of_run(SegmentId::new(x.segment), 0, x.rows)
}

// The batch of a shared port: the whole segment of its leaf.
fn take_share(s: &mut StateBytes, x: SharedPortIndex) -> Step
    ensures result_value { step_of result ≡ (take_front x.at (queue_at (view s.old) x.at) (view s.old)).0 }
    ensures width_bound { width_of result ≤ 4 }
    ensures becomes { Becomes (λ m. (take_front x.at (queue_at m x.at) m).1) s.old s.new }
{
    if !table_ports::share_flags::is_full(s, x) {
        table_lists::causes::fault_if(s, true);
        return Step::End;
    }
    let b = whole(s, (x.at - 72) / 16);
    table_ports::share_flags::clear_share(s, x);
    Step::Final(b.trimmed())
}

// The front batch of a port is taken; a cause of 14 where there is none.
pub(crate) fn take_front(s: &mut StateBytes, x: PortIndex) -> Step
    ensures result_value { step_of result ≡ (take_front x.at (queue_at (view s.old) x.at) (view s.old)).0 }
    ensures width_bound { width_of result ≤ 4 }
    ensures becomes { Becomes (λ m. (take_front x.at (queue_at m x.at) m).1) s.old s.new }
{
    if x.at < 72 {
        take_bounded(s, SlotPortIndex { at: x.at })
    } else {
        take_share(s, SharedPortIndex { at: x.at })
    }
}

// n rows of the front batch of a bounded port are taken.
pub(crate) fn take_rows(s: &mut StateBytes, x: SlotPortIndex, n: u32)
    requires nonzero { 0 < length (queue_at (view s.old) x.at) }
    requires x_value { fits n (front_of (view s.old) x.at) ≡ true }
    ensures { Becomes (λ m. set_queue x.at (taken n (queue_at m x.at)) m) s.old s.new }
{
    let b = table_ports::queues::batch_at(s, x, 0);
    if b.rows == n {
        table_ports::queues::pop_batch(s, x);
    } else {
        let rest = b.behind(n).unwrap_or(b);
        table_ports::queues::replace_front(s, x, rest.trimmed());
    }
}
