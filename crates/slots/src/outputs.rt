// The batches of the root's port go to the outputs.
ghost use Rattle.std.specs.Prelude.{◌≡◌, [], map, ◌≤◌, length};
ghost use Rattle.rules.specs.Port.{capacity};
ghost use Rattle.rules.specs.Machine.{queue_at, with_outputs};
ghost use Rattle.rules.specs.Scan.{output_of};
ghost use Rattle.tables.specs.Change.{Becomes};
ghost use Rattle.tables.specs.View.{view};
ghost use Rattle.slots.specs.Outputs.{put_out};

use table_queues::Output;
use tables::{SlotPortIndex, StateBytes};

// All batches of port x are held as outputs of split t, where none is held.
fn hold_batches(s: &mut StateBytes, x: SlotPortIndex, t: u8)
    requires s_value { (view s.old).outputs ≡ [] }
    requires x_len_bound { length (queue_at (view s.old) x.at) ≤ capacity }
    ensures { Becomes (λ m. with_outputs (map (output_of t) (queue_at m x.at)) m) s.old s.new }
{
    for i in 0..table_ports::queues::queue_len(s, x) {
        let batch = table_ports::queues::batch_at(s, x, i);
        table_queues::outputs::push_output(s, Output { split: t, batch });
    }
}

// And the port is empty, so that its writer may go on.
pub(crate) fn put_out(s: &mut StateBytes, x: SlotPortIndex, t: u8)
    requires s_value { (view s.old).outputs ≡ [] }
    requires x_len_bound { length (queue_at (view s.old) x.at) ≤ capacity }
    ensures { Becomes (put_out x.at t) s.old s.new }
{
    hold_batches(s, x, t);
    table_ports::queues::clear_queue(s, x);
    waking::writer::wake_writer(s, x.at);
}
