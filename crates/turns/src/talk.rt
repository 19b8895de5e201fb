// What is said.
ghost use Rattle.std.specs.Prelude.{◌≡◌, ◌≤◌, length};
ghost use Rattle.std.specs.Io.KnownBytes.{Consumes};
ghost use Rattle.tables.specs.Lent.{lent_fault};
ghost use Rattle.tables.specs.View.{view};
ghost use Rattle.feeding.specs.Turned.{turned};
ghost use Rattle.turns.specs.Place.{Within};
ghost use Rattle.turns.specs.Round.{is_over, Says, turn_of, Round, read_in};
ghost use Rattle.turns.specs.Took.{Took};

use crate::input::{Place, coming, refill};
use crate::output::write_all;
use feeding::{Coming, Phase};
use std::io::{Read, Write};

// What a turn came to, and whether its text was taken.
#[derive(Clone, Copy)]
struct Said {
    phase: Phase,
    used: usize,
    waits: bool,
    taken: bool,
}

// Where a session stands, and whether what was said last was taken.
#[derive(Clone, Copy)]
pub(crate) struct Talk {
    pub(crate) phase: Phase,
    pub(crate) place: Place,
    pub(crate) taken: bool,
}

// How the turns end: the session is over, nobody takes what is said, or the turns are used up.
#[derive(Clone, Copy)]
pub(crate) enum Close {
    Over,
    Untaken,
    Spent,
}

// Whether a session is over.
pub(crate) fn is_over(p: Phase) -> bool
    ensures { result ≡ is_over p }
{
    matches!(p, Phase::Over)
}

// A turn on the bytes that are there, and its text written.
fn say<W: Write>(output: &mut W, input: &[u8], p: Phase, c: Coming, state: &mut [u8]) -> Said
    ensures says { Says c p input.now state.old state.new result }
    ensures took { Took result.taken (W.contents output.old) (W.contents output.new)
        (turned (lent_fault state.old) c p (view state.old) input.now).text }
{
    let mut line = [0u8; 128];
    let f = session::next(input, p, c, state, &mut line);
    let taken = write_all(output, &line[..f.written.len]);
    Said {
        phase: f.phase,
        used: f.used,
        waits: f.waits,
        taken,
    }
}

// A turn, and more input where it waits for that.
pub(crate) fn turn<R: Read, W: Write>(
    input: &mut R,
    output: &mut W,
    buf: &mut [u8],
    state: &mut [u8],
    t: Talk,
) -> Talk
    requires within { Within t.place (length buf.old) }
    requires in_bounds { 4096 ≤ length buf.old }
    ensures round { Round t buf.old state.old buf.new state.new result }
    ensures read { Consumes (R.remaining input.old) (R.remaining input.new)
        (read_in t buf.old state.old buf.new result) }
    ensures took { Took result.taken (W.contents output.old) (W.contents output.new)
        (turn_of t buf.old state.old).text }
{
    let p = t.place;
    let c = coming(p, buf.len());
    let s = say(output, &buf[p.at..p.have], t.phase, c, state);
    let q = Place {
        at: p.at + s.used,
        ..p
    };
    if s.waits {
        return Talk {
            phase: s.phase,
            place: refill(input, buf, q),
            taken: s.taken,
        };
    }
    Talk {
        phase: s.phase,
        place: q,
        taken: s.taken,
    }
}
