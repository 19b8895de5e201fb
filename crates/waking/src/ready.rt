// Pipelines become runnable, and stand on the ready stack once.
ghost use Rattle.rules.specs.Wake.{set_state, enqueue, make_runnable};
ghost use Rattle.operator.specs.Pipeline.{state_of};
ghost use Rattle.tables.specs.Change.{Becomes};

use operator::State;
use table_lists::counters;
use table_lists::stacks::{self, Ready};
use table_pipes::pipes;
use tables::{PipeIndex, StateBytes};

// Another state for a pipeline.
pub fn set_state(s: &mut StateBytes, p: PipeIndex, x: State)
    ensures { Becomes (set_state p.at (state_of x)) s.old s.new }
{
    let v = pipes::load_pipe(s, p);
    pipes::store_pipe(s, p, v.with_state(x));
}

// On the ready stack; a full one is a fault.
fn enqueue(s: &mut StateBytes, p: PipeIndex)
    ensures { Becomes (enqueue p.at) s.old s.new }
{
    let n = stacks::len::<Ready>(s);
    if 96 <= n {
        counters::set_fault(s, true);
        return;
    }
    let v = pipes::load_pipe(s, p);
    pipes::store_pipe(s, p, v.with_queued(true));
    stacks::push::<Ready>(s, p.at as u8);
}

// Runnable, and on the ready stack unless it stands there already.
pub fn make_runnable(s: &mut StateBytes, p: PipeIndex)
    ensures { Becomes (make_runnable p.at) s.old s.new }
{
    let v = pipes::load_pipe(s, p);
    set_state(s, p, State::Runnable);
    if v.queued {
        return;
    }
    enqueue(s, p);
}
