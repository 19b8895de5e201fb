// A pipeline with its state.
ghost use Rattle.std.specs.Prelude.{◌≡◌, ◌+◌, ◌*◌};
ghost use Rattle.rules.specs.Machine.{live, pipe_at, set_pipe};
ghost use Rattle.operator.specs.Pipeline.{state_of, pipeline_of};
ghost use Rattle.tables.specs.Decode.{state_from};
ghost use Rattle.tables.specs.Change.{Becomes};
ghost use Rattle.tables.specs.View.{view};
ghost use Rattle.table_pipes.specs.Tags.{state_tag, state_arg};

use operator::{Pipeline, SourceBlocked, State};
use tables::PipeIndex;

pub(crate) const PIPES: usize = 3327;

// kept: a number for a kind, since these are the bytes of docs/STATE.md; any tag past the last reads as what check 12 refuses.
fn state_of(tag: u8, inlet: u8) -> State
    ensures { state_of result ≡ state_from tag inlet }
{
    match tag {
        0 => State::Runnable,
        1 => State::Blocked(SourceBlocked::Io),
        2 => State::Blocked(SourceBlocked::Inlet(inlet)),
        3 => State::Outlet,
        _ => State::Blocked(SourceBlocked::Inlet(255)),
    }
}

fn state_tag(x: State) -> u8
    ensures { result ≡ state_tag x }
{
    match x {
        State::Runnable => 0,
        State::Blocked(SourceBlocked::Io) => 1,
        State::Blocked(SourceBlocked::Inlet(_)) => 2,
        State::Outlet => 3,
    }
}

fn state_arg(x: State) -> u8
    ensures { result ≡ state_arg x }
{
    match x {
        State::Blocked(SourceBlocked::Inlet(i)) => i,
        _ => 0,
    }
}

// Whether a pipeline lives at a place.
pub fn is_live(s: &tables::StateBytes, p: PipeIndex) -> bool
    ensures { result ≡ live (view s.now) p.at }
{
    s[PIPES + p.at * 5] != 0
}

// The pipeline at a place.
pub fn load_pipe(s: &tables::StateBytes, p: PipeIndex) -> Pipeline
    ensures { pipeline_of result ≡ pipe_at (view s.now) p.at }
{
    let a = PIPES + p.at * 5;
    Pipeline {
        live: s[a] != 0,
        state: state_of(s[a + 1], s[a + 2]),
        queued: s[a + 3] != 0,
        number: s[a + 4],
    }
}

// Another pipeline at a place.
pub fn store_pipe(s: &mut tables::StateBytes, p: PipeIndex, x: Pipeline)
    ensures { Becomes (set_pipe p.at (pipeline_of x)) s.old s.new }
{
    let a = PIPES + p.at * 5;
    s[a..a + 5].copy_from_slice(&[
        u8::from(x.live),
        state_tag(x.state),
        state_arg(x.state),
        u8::from(x.queued),
        x.number,
    ]);
}
