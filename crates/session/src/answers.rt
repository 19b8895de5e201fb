// One call answered.
ghost use Rattle.std.specs.Prelude.{Some};
ghost use Rattle.call_records.specs.declared.calls.Call.TheVariants as call;
ghost use Rattle.session.specs.Answered.{Answered};

use call_records::Call;
use jobs::Refusal;
use lines::Written;

// A step and its line.
fn step(state: &mut [u8], out: &mut [u8], w: Written) -> Written
    ensures { Answered (Some call.Step) state.old out.old w state.new out.new result }
{
    let a = scheduler::step(state);
    lines::answers::turn_line(out, w, turn::tell_turn(a))
}

// A delivery and its line.
fn deliver(state: &mut [u8], out: &mut [u8], w: Written, read: u32, rows: u32) -> Written
    ensures { Answered (Some (call.Deliver read rows)) state.old out.old w state.new out.new result }
{
    let a = scheduler::deliver(state, read, rows);
    lines::answers::turn_line(out, w, turn::tell_turn(a))
}

// A call, none where it is bad, and its line: refusal 2 of a bad one, refusal 1 where the state is too short.
pub fn answer(state: &mut [u8], out: &mut [u8], w: Written, x: Option<Call>) -> Written
    ensures { Answered x state.old out.old w state.new out.new result }
{
    match x {
        Some(Call::Step) => step(state, out, w),
        Some(Call::Deliver(read, rows)) => deliver(state, out, w, read, rows),
        None => lines::answers::refused_line(out, w, Refusal::Malformed.number()),
    }
}
