// A session whose input still comes, one turn at a time.
ghost use Rattle.std.specs.Prelude.{◌≡◌, ◌≤◌, length};
ghost use Rattle.lines.specs.Page.{page, puts};
ghost use Rattle.lines.specs.Lines.{opened_text};
ghost use Rattle.session.specs.Feeding.{open_turn, skip_turn, fed_by, last_of, Left, Does, Feeds};

use crate::answers::answer;
use feeding::{Coming, Phase, Task, tasks};
use lines::Written;
use turn::Told;

// What a turn comes to: the phase after it, how many bytes of the input it used, whether it waits for more, and what it wrote.
#[derive(Clone, Copy)]
pub struct Fed {
    pub phase: Phase,
    pub used: usize,
    pub waits: bool,
    pub written: Written,
}

// The first n bytes opened as a job, and the line.
fn opens(input: &[u8], n: usize, state: &mut [u8], out: &mut [u8], w: Written) -> Fed
    requires { n ≤ length input.now }
    ensures { Does (open_turn input.now n state.old)
        state.old out.old w state.new out.new result }
{
    let o = scheduler::open(&input[..n], state);
    let written = lines::answers::opened_line(out, w, turn::tell_verdict(o));
    match o {
        Ok(()) => Fed {
            phase: Phase::Calls,
            used: n,
            waits: false,
            written,
        },
        Err(_) => Fed {
            phase: Phase::Over,
            used: n,
            waits: false,
            written,
        },
    }
}

// A split of so many bytes at a position, for which there is no room: how it is refused is told by opening what is there, and the
// records before the split in a state of their own.
fn skips(input: &[u8], at: usize, size: usize, state: &mut [u8], w: Written) -> Fed
    requires { at ≤ length input.now }
    ensures value { result ≡ fed_by (skip_turn input.now at size state.old) w }
    ensures left { Left (skip_turn input.now at size state.old) state.old state.new }
{
    let there = scheduler::open(input, state);
    let all = turn::tell_verdict(there);
    let mut own = [0u8; scheduler::STATE_LEN];
    let before = scheduler::open(&input[..at], &mut own);
    let front = turn::tell_verdict(before);
    let whole = tasks::long_told(all, front);
    Fed {
        phase: Phase::Skip(size, whole, all),
        used: at,
        waits: false,
        written: w,
    }
}

// The line of a verdict; it ends the session, with all n bytes used.
fn tells(n: usize, v: Result<(), Told>, out: &mut [u8], w: Written) -> Fed
    ensures value { result ≡ last_of n result.written }
    ensures written_after { page out.new result.written ≡ puts (opened_text v) (page out.old w) }
{
    let written = lines::answers::opened_line(out, w, v);
    Fed {
        phase: Phase::Over,
        used: n,
        waits: false,
        written,
    }
}

// One turn: on the bytes of the input that are there and not yet used, by what the session has come to and by what may follow.
pub fn next(input: &[u8], p: Phase, c: Coming, state: &mut [u8], out: &mut [u8]) -> Fed
    ensures { Feeds c p input.now state.old out.old state.new out.new result }
{
    let w = Written {
        len: 0,
        whole: true,
    };
    let t = tasks::task(input, p, c);
    match t {
        Task::Wait => Fed {
            phase: p,
            used: 0,
            waits: true,
            written: w,
        },
        Task::Open(n) => opens(input, n, state, out, w),
        Task::Skip(at, size) => skips(input, at, size, state, w),
        Task::Pass(q) => Fed {
            phase: q,
            used: input.len(),
            waits: true,
            written: w,
        },
        Task::Tell(v) => tells(input.len(), v, out, w),
        Task::Answer(call, n) => Fed {
            phase: tasks::after(call),
            used: n,
            waits: false,
            written: answer(state, out, w, call),
        },
        Task::End => Fed {
            phase: Phase::Over,
            used: 0,
            waits: false,
            written: w,
        },
    }
}
