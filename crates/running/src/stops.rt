// The state of a pipeline that stopped.
ghost use Rattle.std.specs.Prelude.{◌≡◌};
ghost use Rattle.rules.specs.Operators.{io};
ghost use Rattle.rules.specs.Drive.{is_blocked, has_bytes, set_stopped};
ghost use Rattle.operator.specs.Answer.{blocked_of};
ghost use Rattle.table_pipes.specs.Source.{source_of};
ghost use Rattle.tables.specs.Change.{Becomes};

use operator::{SourceBlocked, State};
use table_pipes::Source;
use tables::{PipeIndex, StateBytes};

// Whether bytes that were delivered are unused.
fn has_bytes(x: Source) -> bool
    ensures { result ≡ has_bytes (source_of x) }
{
    matches!(x, Source::Segment(y) if y.bytes)
}

// Blocked on bytes; with some of them unused, it is queued again.
fn stop_for_bytes(s: &mut StateBytes, p: PipeIndex)
    ensures { Becomes (set_stopped p.at (is_blocked io)) s.old s.new }
{
    let x = table_pipes::source_table::load_source(s, p);
    if has_bytes(x) {
        waking::ready::make_runnable(s, p);
        return;
    }
    waking::ready::set_state(s, p, State::Blocked(SourceBlocked::Io));
}

// Blocked on what its source waits for.
pub(crate) fn stop_blocked(s: &mut StateBytes, p: PipeIndex, b: SourceBlocked)
    ensures { Becomes (set_stopped p.at (is_blocked (blocked_of b))) s.old s.new }
{
    match b {
        SourceBlocked::Io => stop_for_bytes(s, p),
        SourceBlocked::Inlet(i) => waking::ready::set_state(
            s,
            p,
            State::Blocked(SourceBlocked::Inlet(i)),
        ),
    }
}
