// One run of a pipeline: rounds until one of three answers leaves it.
ghost use Rattle.std.specs.Prelude.{◌≡◌, length, drop};
ghost use Rattle.rules.specs.Drive.{drive, patience};
ghost use Rattle.tables.specs.View.{view, Sized, machine_len};
ghost use Rattle.driver.specs.Run.{Runs, round_of};

use crate::{source, stage};
use operator::{SourceBlocked, SourceReady};
use tables::{MACHINE_LEN, PipeIndex, StateBytes};

// Why a run stopped: for bytes or an inlet, at its full outlet, because it is done, or for a cause of refusal 14.
#[derive(Clone, Copy)]
pub enum Progress {
    Blocked(SourceBlocked),
    Outlet,
    Done,
    Failed,
}

// The stages come first: the source has its turn when none of them continues or is to be finished.
// kept: document 01 says the round so: a labelled loop that yields why it stopped, left by break from inside the stage loop.
fn run_rounds(s: &mut StateBytes, p: PipeIndex) -> Progress
    requires runs { Runs p.at (view s.old) }
    ensures size { length s.new ≡ machine_len }
    ensures s_value { drive patience p.at (view s.old) ≡ round_of result (view s.new) }
    ensures s_unchanged { drop machine_len s.new ≡ drop machine_len s.old }
{
    'run: loop {
        loop {
            let x = table_pipes::stages::load_stage(s, p);
            if stage::is_over(x) {
                outlets::each::close_outlets(s, p);
                break 'run Progress::Done;
            }
            if waking::writer::any_full(s, p) {
                break 'run Progress::Outlet;
            }
            if !stage::has_turn(x) {
                match source::source_ready(s, p, x.more) {
                    SourceReady::Ready => break,
                    SourceReady::Blocked(b) => break 'run Progress::Blocked(b),
                }
            }
            stage::stage_turn(s, p, x);
            if table_lists::counters::fault(s) {
                break 'run Progress::Failed;
            }
        }
        source::compute(s, p);
        if table_lists::counters::fault(s) {
            break 'run Progress::Failed;
        }
    }
}

// The same in any bytes that have a machine.
pub fn drive(s: &mut [u8], p: PipeIndex) -> Progress
    requires sized { Sized s.old }
    requires runs { Runs p.at (view s.old) }
    ensures s_value { drive patience p.at (view s.old) ≡ round_of result (view s.new) }
    ensures s_unchanged { drop machine_len s.new ≡ drop machine_len s.old }
{
    run_rounds(s.first_chunk_mut::<MACHINE_LEN>().unwrap(), p)
}
