// The next split takes a free slot.
ghost use Rattle.std.specs.Prelude.{suc, ◌<◌, length};
ghost use Rattle.rules.specs.Machine.{with_next};
ghost use Rattle.rules.specs.Scan.{end_split, activate};
ghost use Rattle.laws.specs.JobOk.{JobOk};
ghost use Rattle.order.specs.Ranged.{Ranged};
ghost use Rattle.tables.specs.Change.{Becomes};
ghost use Rattle.tables.specs.View.{view};
ghost use Rattle.slots.specs.Activation.{lowered, placed};

use table_ports::Reader;
use tables::{NodeIndex, PipeIndex, SlotIndex, SplitIndex, StateBytes};

// The root is lowered into slot k for split t, with all below it, and the slot reads it.
fn lower_split(s: &mut StateBytes, k: SlotIndex, t: SplitIndex)
    requires job_ok { JobOk (view s.old).job }
    ensures { Becomes (lowered k.at t.at) s.old s.new }
{
    let n = NodeIndex {
        at: reach::leaves::root(s),
    };
    lowering::walk::lower_node(s, k, t, 0, n);
    lowering::joins::connect(
        s,
        PipeIndex {
            at: 24 * k.at + n.at,
        },
        Reader::Slot,
    );
}

// The slot has the split.
fn place_split(s: &mut StateBytes, k: SlotIndex, t: SplitIndex)
    requires job_ok { JobOk (view s.old).job }
    ensures { Becomes (placed k.at t.at) s.old s.new }
{
    let number = t.at as u8;
    table_lists::active::store_active(s, k, Some(number));
    table_lists::counters::set_next(s, number + 1);
    lower_split(s, k, t);
}

// A split that keeps no rows ends at once.
fn skip_split(s: &mut StateBytes, t: SplitIndex)
    requires ranged { Ranged (view s.old) }
    requires t_in_bounds { t.at < length (view s.old).job.splits }
    ensures { Becomes (λ m. end_split t.at (with_next (suc t.at) m)) s.old s.new }
{
    table_lists::counters::set_next(s, t.at as u8 + 1);
    leaving::ends::end_split(s, t);
}

// The next split has its turn: it is lowered into the slot, unless it keeps no rows.
pub fn activate(s: &mut StateBytes, k: SlotIndex)
    requires ranged { Ranged (view s.old) }
    requires s_in_bounds { (view s.old).next < length (view s.old).job.splits }
    ensures { Becomes (activate k.at) s.old s.new }
{
    let t = SplitIndex {
        at: usize::from(table_lists::counters::next(s)),
    };
    let n = reach::leaves::root(s);
    if reach::cut::keeps(s, n, t.at) {
        place_split(s, k, t);
    } else {
        skip_split(s, t);
    }
}
