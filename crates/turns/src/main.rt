// A session over standard input and output: a job, then calls, each of them answered as soon as its bytes are there. Document 01, "Sessions".
// The loop takes a turn (`session::next`) on the bytes that are there and not yet used, writes what the turn says, and reads more where it waits.
// A round is the rules' turn on just those bytes (specs/Round.antt), so that all that was said and what is ahead are at every round the rule's session
// of all that was read, also of a job longer than the buffer (specs/Session.antt, by the law of `feeding`). This is proved of any reader and any writer:
// where a contract knows their bytes, what was read is what the reader handed over, and what the writer took is all that was said, or a front of it where
// it stopped taking (specs/Told.antt). A read that fails is taken for the input's end. Not proved, since no contract of std says it: what bytes standard
// input hands over, that it hands over none only at its end, and that the bytes that standard output takes are those that it was given.
#![tactic(auto)]

mod input; // input.rt: the input as it comes
mod output; // output.rt: what is said, as it goes out
mod shift; // shift.rt: bytes moved to the front
mod talk; // talk.rt: what is said

ghost use Rattle.std.specs.Prelude.{◌≡◌, ◌≤◌, length};
ghost use Rattle.std.proofs.Math.Option.{none};
ghost use Rattle.tables.specs.Lent.{lent_fault};
ghost use Rattle.turns.specs.Session.{Closes};
ghost use Rattle.turns.specs.Told.{Told, Fronts};

use feeding::Phase;
use input::Place;
use std::io::{Read, Write};
use talk::{Close, Talk};

// Turns, one after another, until the session is over or nobody takes what is said. They are counted up to a number that no run reaches.
fn talk_on<R: Read, W: Write>(
    input: &mut R,
    output: &mut W,
    buf: &mut [u8],
    state: &mut [u8],
) -> Close
    requires in_bounds { 4096 ≤ length buf.old }
    requires state_value { lent_fault state.old ≡ none }
    ensures closes { Closes result buf.new state.new }
    ensures told { Told result (R.remaining input.old) (R.remaining input.new)
        (W.contents output.old) (W.contents output.new) buf.new state.new }
    ensures fronts { Fronts (R.remaining input.old) (R.remaining input.new)
        (W.contents output.old) (W.contents output.new) }
{
    let mut t = Talk {
        phase: Phase::Job,
        place: Place {
            at: 0,
            have: 0,
            ended: false,
        },
        taken: true,
    };
    for turns in 0..u64::MAX {
        let next = talk::turn(input, output, buf, state, t);
        if talk::is_over(next.phase) {
            return Close::Over;
        }
        if !next.taken {
            return Close::Untaken;
        }
        t = next;
    }
    Close::Spent
}

fn main(rt: HostRuntime) {
    let mut space = [0u8; 65536];
    let mut bytes = [0u8; 39351];
    let buf: &mut [u8] = &mut space;
    let state: &mut [u8] = &mut bytes;
    talk_on(&mut rt.stdin(), &mut rt.stdout(), buf, state);
}
