// One pipeline, and all.
ghost use Rattle.std.specs.Prelude.{◌≡◌, ◌&&◌, [], ◌+◌, ◌≤◌, ◌<◌};
ghost use Rattle.rules.specs.Table.{get, each};
ghost use Rattle.rules.specs.Machine.{pipe_at};
ghost use Rattle.rules.specs.Check.{set_ok, pipe_ok};
ghost use Rattle.operator.specs.Pipeline.{pipeline_of};
ghost use Rattle.tables.specs.View.{view, Sized};
ghost use Rattle.numbers.specs.Loops.{from};
ghost use Rattle.check_pipes.specs.Pipes.{body_ok, live_ok};

use crate::plain::plain_ok;
use crate::{ends, stage, state};
use check_sources::sets::set_ok;
use operator::Pipeline;
use table_sets::sets::{self, Changed, Sets, Touched};
use tables::front::machine;
use tables::{PipeIndex, StateBytes};

// Whether the place, the number, the source, the stage and the state of a pipeline are in range.
fn body_ok(s: &StateBytes, p: PipeIndex, x: Pipeline) -> bool
    ensures { result ≡ body_ok (view s.now) p.at (pipeline_of x) }
{
    check_parts::places::place_ok(s, p.at)
        && x.number < table_lists::counters::made(s)
        && check_sources::source::source_ok(s, p)
        && stage::stage_in_range(s, p)
        && state::state_ok(p.at, table_pipes::inlets::inlet_count(s, p), x.state)
}

// Whether the inlets that a table notes at a place are of its n: there may be none.
#[tactic(auto, using(crate::specs::Pipes::none_noted))]
fn noted_ok<T: Sets>(s: &StateBytes, p: PipeIndex, n: usize) -> bool
    ensures { result ≡ set_ok n (get [] (T.of (view s.now)) p.at) }
{
    sets::is_empty::<T>(s, p) || set_ok(n, sets::load::<T>(s, p))
}

// Whether a pipeline that lives is in range: its body, the inlets that it notes, and its ports.
fn live_ok(s: &StateBytes, p: PipeIndex, x: Pipeline) -> bool
    ensures { result ≡ live_ok (view s.now) p.at (pipeline_of x) }
{
    let n = table_pipes::inlets::inlet_count(s, p);
    body_ok(s, p, x)
        && noted_ok::<Changed>(s, p, n)
        && noted_ok::<Touched>(s, p, n)
        && ends::inlets_in_use(s, p)
        && ends::outlet_in_use(s, p.at)
}

// Whether what stands at a place is in range: where no pipeline lives, it is.
fn pipe_in_order(s: &StateBytes, p: PipeIndex) -> bool
    ensures { result ≡ pipe_ok (view s.now) p.at (pipe_at (view s.now) p.at) }
{
    if !table_pipes::pipes::is_live(s, p) {
        return true;
    }
    let x = table_pipes::pipes::load_pipe(s, p);
    plain_ok(s, p, x) || live_ok(s, p, x)
}

// The same in any bytes that have a machine.
pub fn pipe_ok(s: &[u8], p: PipeIndex) -> bool
    requires sized { Sized s.now }
    ensures { result ≡ pipe_ok (view s.now) p.at (pipe_at (view s.now) p.at) }
{
    pipe_in_order(machine(s), p)
}

// Whether the n pipelines from p on are in range, one by one. What follows them is left to test where they are.
fn pipes_from(s: &StateBytes, p: usize, n: usize) -> bool
    requires n_bound { p + n ≤ 96 }
    ensures { from (pipe_ok (view s.now)) (view s.now).pipes p
        ≡ (result && from (pipe_ok (view s.now)) (view s.now).pipes (p + n)) }
{
    for i in p..p + n {
        if !pipe_in_order(s, PipeIndex { at: i }) {
            return false;
        }
    }
    true
}

// The same for the 24 of a slot or of the shared leaves, at once where their bytes are all 0.
fn slot_ok(s: &StateBytes, p: usize) -> bool
    requires p_bound { p + 24 ≤ 96 }
    ensures { from (pipe_ok (view s.now)) (view s.now).pipes p
        ≡ (result && from (pipe_ok (view s.now)) (view s.now).pipes (p + 24)) }
{
    table_pipes::blank::blank_pipes(s, p, 24) || pipes_from(s, p, 24)
}

// Whether all pipelines are.
// kept: a loop like those over blocks of ports; one for both would take the test, the block's size and the table's rule.
pub fn pipes_ok(s: &StateBytes) -> bool
    ensures { result ≡ each (pipe_ok (view s.now)) 0 (view s.now).pipes }
{
    for k in 0..4 {
        if !slot_ok(s, k * 24) {
            return false;
        }
    }
    true
}
