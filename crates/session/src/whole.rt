// A whole session.
ghost use Rattle.std.specs.Prelude.{◌≡◌, ◌≤◌, length, drop};
ghost use Rattle.std.proofs.Math.Option.{none};
ghost use Rattle.rules.specs.Job.{accepted};
ghost use Rattle.rules.specs.Session as rule;
ghost use Rattle.tables.specs.View.{view, state_len};
ghost use Rattle.tables.specs.Lent.{lent_fault};
ghost use Rattle.lines.specs.Page.{page, puts};
ghost use Rattle.session.specs.Answering.{calls_leave};
ghost use Rattle.session.specs.Whole.{session_on, Prints, Leaves};

use crate::answers::answer;
use call_records::calls::next_call;
use call_records::job::job_len;
use lines::Written;

// The calls from a position on, answered one after another up to a bad one.
fn answer_all(input: &[u8], from: usize, state: &mut [u8], out: &mut [u8], w: Written) -> Written
    requires state_value { lent_fault state.old ≡ none }
    requires from_in_bounds { from ≤ length input.now }
    ensures result_after { page out.new result
        ≡ puts (rule.calls (length (drop from input.now)) (drop from input.now) (view state.old))
        (page out.old w) }
    ensures state_after { view state.new
        ≡ calls_leave (length (drop from input.now)) (drop from input.now) (view state.old) }
    ensures state_unchanged { drop state_len state.new ≡ drop state_len state.old }
{
    let mut done = w;
    let mut at = from;
    while at < input.len() {
        let Some((call, next)) = next_call(input, at) else {
            return answer(state, out, done, None);
        };
        done = answer(state, out, done, Some(call));
        at = next;
    }
    done
}

// What is printed after an opening.
fn opened(input: &[u8], from: usize, state: &mut [u8], out: &mut [u8], w: Written) -> Written
    requires state_value { lent_fault state.old ≡ none }
    requires from_in_bounds { from ≤ length input.now }
    ensures result_after { page out.new result
        ≡ puts (rule.opened (accepted (view state.old)) (drop from input.now)) (page out.old w) }
    ensures state_after { view state.new
        ≡ calls_leave (length (drop from input.now)) (drop from input.now) (view state.old) }
    ensures state_unchanged { drop state_len state.new ≡ drop state_len state.old }
{
    let a = lines::answers::open_line(out, w);
    answer_all(input, from, state, out, a)
}

// A whole session: the bytes of an input, a state to work on, and the bytes that take what is printed.
pub fn session(input: &[u8], state: &mut [u8], out: &mut [u8]) -> Written
    ensures prints { Prints (session_on (length state.old) input.now) out.old result out.new }
    ensures leaves { Leaves input.now state.old state.new }
{
    let w = Written {
        len: 0,
        whole: true,
    };
    let n = job_len(input);
    match scheduler::open(&input[..n], state) {
        Err(r) => lines::answers::opened_line(out, w, Err(turn::tell_refusal(r))),
        Ok(()) => opened(input, n, state, out, w),
    }
}
