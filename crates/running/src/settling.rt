// A run of a pipeline, and what follows it.
ghost use Rattle.std.specs.Prelude.{◌<◌, length};
ghost use Rattle.rules.specs.Drive.{is_blocked, at_outlet, done, stop, settle, run};
ghost use Rattle.operator.specs.Answer.{blocked_of};
ghost use Rattle.order.specs.RangeRun.{DriveFits};
ghost use Rattle.tables.specs.Change.{Becomes};
ghost use Rattle.tables.specs.View.{view};
ghost use Rattle.driver.specs.Run.{Runs};

use crate::{neighbours, stops};
use driver::Progress;
use operator::{SourceBlocked, State};
use tables::{PipeIndex, StateBytes};

// After a run that stopped for its source.
fn settle_blocked(s: &mut StateBytes, p: PipeIndex, b: SourceBlocked)
    requires drive_fits { DriveFits p.at (stop (is_blocked (blocked_of b)) (view s.old)) }
    ensures { Becomes (settle p.at (is_blocked (blocked_of b))) s.old s.new }
{
    stops::stop_blocked(s, p, b);
    neighbours::wake_neighbours(s, p);
}

// After one that stopped at its full outlet.
fn settle_outlet(s: &mut StateBytes, p: PipeIndex)
    requires drive_fits { DriveFits p.at (stop at_outlet (view s.old)) }
    ensures { Becomes (settle p.at at_outlet) s.old s.new }
{
    waking::ready::set_state(s, p, State::Outlet);
    neighbours::wake_neighbours(s, p);
}

// After one that is done: the pipeline retires.
fn settle_done(s: &mut StateBytes, p: PipeIndex)
    requires drive_fits { DriveFits p.at (stop done (view s.old)) }
    ensures { Becomes (settle p.at done) s.old s.new }
{
    neighbours::wake_neighbours(s, p);
    pipelines::retiring::retire(s, p);
}

// The pipeline at p runs, and its neighbours are woken; a cause of 14 in the run is one of the state.
pub fn run(s: &mut StateBytes, p: PipeIndex)
    requires runs { Runs p.at (view s.old) }
    requires s_len_bound { length (view s.old).dirty < 3 }
    ensures { Becomes (run p.at) s.old s.new }
{
    match driver::rounds::drive(s, p) {
        Progress::Blocked(b) => settle_blocked(s, p, b),
        Progress::Outlet => settle_outlet(s, p),
        Progress::Done => settle_done(s, p),
        Progress::Failed => table_lists::causes::fault_if(s, true),
    }
}
