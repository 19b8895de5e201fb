// A port that was read wakes its writer only if that is stopped at an outlet and no outlet of it is full.
ghost use Rattle.std.specs.Prelude.{◌≡◌, ◌&&◌, not};
ghost use Rattle.rules.specs.Machine.{live, pipe_at};
ghost use Rattle.rules.specs.Wake.{at_outlet, any_full, wake_writer};
ghost use Rattle.tables.specs.Change.{Becomes};
ghost use Rattle.tables.specs.View.{view};

use crate::ready;
use tables::{PipeIndex, SlotPortIndex, StateBytes};

// Any outlet full: a shared source's outlets never are.
pub fn any_full(s: &StateBytes, p: PipeIndex) -> bool
    ensures { result ≡ any_full (view s.now) p.at }
{
    p.at < 72 && table_ports::queues::queue_full(s, SlotPortIndex { at: p.at })
}

// Whether the pipeline at a place is stopped at an outlet, and no outlet is full.
fn can_write(s: &StateBytes, p: PipeIndex) -> bool
    ensures { result ≡ (live (view s.now) p.at && at_outlet (pipe_at (view s.now) p.at).state && not (any_full (view s.now) p.at)) }
{
    let v = table_pipes::pipes::load_pipe(s, p);
    // Only of one that is stopped are the batches gone through.
    v.live && v.state.at_outlet() && !any_full(s, p)
}

// The writer of port x, of which a batch, or a part of one, was taken.
pub fn wake_writer(s: &mut StateBytes, x: usize)
    ensures { Becomes (wake_writer x) s.old s.new }
{
    if 72 <= x {
        return;
    }
    let p = PipeIndex { at: x };
    if can_write(s, p) {
        ready::make_runnable(s, p);
    }
}
