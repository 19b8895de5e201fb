// What a step or a delivery answers, by value; what an opening answers is a `Result<(), Refusal>` (`jobs`). The types stand below the scan, so that
// writing an answer as numbers (`turn_numbers`) or as a line (`lines`) needs nothing of it. What each case is in document 01's terms is in
// `scheduler`, specs/Answers.antt. The Rust's `Turn` of scan.rs, with the refusals of its `VortexResult` among the cases. Where an answer is written, a
// refusal is told by its number (`Told`): whatever number it is, also one that no call gives.
#![tactic(auto)]

ghost use Rattle.std.specs.Prelude.{◌≡◌};
ghost use Rattle.turn.specs.Told.{told_of, verdict_told, turn_told};

use batches::Batch;
use jobs::Refusal;

// A read's number and segment; a split's output; nothing to do until bytes come; the end; or why the call is refused.
#[derive(Clone, Copy)]
pub enum Turn<R = Refusal> {
    Read(u8, u32),
    Output(u8, Batch),
    Waiting,
    Done,
    Refused(R),
}

// A refusal by its number, with the index of a run at fault where it has one.
#[derive(Clone, Copy)]
pub struct Told {
    pub number: u8,
    pub run: Option<u8>,
}

// A refusal as it is told.
pub fn tell_refusal(r: Refusal) -> Told
    ensures { result ≡ told_of r }
{
    Told {
        number: r.number(),
        run: r.run(),
    }
}

// What an opening comes to, as it is told.
pub fn tell_verdict(v: Result<(), Refusal>) -> Result<(), Told>
    ensures { result ≡ verdict_told v }
{
    match v {
        Ok(()) => Ok(()),
        Err(r) => Err(tell_refusal(r)),
    }
}

// What a step or a delivery comes to, as it is told.
pub fn tell_turn(x: Turn) -> Turn<Told>
    ensures { result ≡ turn_told x }
{
    match x {
        Turn::Read(r, g) => Turn::Read(r, g),
        Turn::Output(s, b) => Turn::Output(s, b),
        Turn::Waiting => Turn::Waiting,
        Turn::Done => Turn::Done,
        Turn::Refused(r) => Turn::Refused(tell_refusal(r)),
    }
}
