// The source's turn.
ghost use Rattle.std.specs.Prelude.{◌≡◌, []};
ghost use Rattle.rules.specs.Machine.{set_changed};
ghost use Rattle.rules.specs.Drive.{compute};
ghost use Rattle.operator.specs.Answer.{ready_of, step_of};
ghost use Rattle.order.specs.RangePorts.{OutFits};
ghost use Rattle.order.specs.RangeStep.{Gives};
ghost use Rattle.tables.specs.Change.{Becomes};
ghost use Rattle.tables.specs.View.{view};
ghost use Rattle.driver.specs.Able.{Able};
ghost use Rattle.driver.specs.Run.{Runs};
ghost use Rattle.driver.specs.Turns.{source_ready, source_gives};

use crate::stage;
use inlet_set::InletSet;
use operator::{SourceReady, Step};
use table_sets::sets::{self, Changed};
use tables::{PipeIndex, StateBytes};

// No inlet has changed since the source was tested.
fn clear_changed(s: &mut StateBytes, p: PipeIndex)
    ensures { Becomes (set_changed p.at []) s.old s.new }
{
    sets::store::<Changed>(s, p, InletSet::new());
}

// Whether the source can go on: it is tested unless it last said More.
pub(crate) fn source_ready(s: &mut StateBytes, p: PipeIndex, more: bool) -> SourceReady
    requires runs { Runs p.at (view s.old) }
    ensures result_value { ready_of result ≡ (source_ready p.at more (view s.old)).0 }
    ensures becomes { Becomes (λ m. (source_ready p.at more m).1) s.old s.new }
{
    if more {
        return SourceReady::Ready;
    }
    let ready = source_steps::source::test_source(s, p);
    clear_changed(s, p);
    ready
}

// What the source gave goes on.
fn source_gives(s: &mut StateBytes, p: PipeIndex, x: Step)
    requires able { Able p.at (view s.old) }
    requires gives { Gives (OutFits (view s.old).job p.at) (step_of x) }
    ensures { Becomes (source_gives p.at (step_of x)) s.old s.new }
{
    match x {
        Step::End => stage::finished_stages(s, p, 0),
        Step::More(b) | Step::Final(b) => stage::source_out(s, p, b),
    }
}

// The source gives, and what it gives goes on.
pub(crate) fn compute(s: &mut StateBytes, p: PipeIndex)
    requires able { Able p.at (view s.old) }
    ensures { Becomes (compute p.at) s.old s.new }
{
    let x = source_steps::source::source_step(s, p);
    stage::said_more(s, p, stage::is_more(x));
    source_gives(s, p, x);
}
