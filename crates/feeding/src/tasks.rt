// What is to be done with the bytes that are there.
ghost use Rattle.std.specs.Prelude.{◌≡◌, ◌≤◌, length};
ghost use Rattle.call_records.specs.JobEnd.{records_end};
ghost use Rattle.feeding.specs.Tasks.{may_come, long_task, goes_on, job_task, skip_task, call_task, task_of};
ghost use Rattle.feeding.specs.Turned as does;

use crate::{Coming, Phase, Task};
use call_records::Call;
use call_records::calls::{next_call, wanted};
use call_records::job::job_end;
use jobs::Refusal;
use records::{fields, marks};
use turn::Told;

// A job that there is no room for.
#[tactic(auto, unfolding(crate::specs::Tasks::long_task))]
fn long_task(input: &[u8], at: usize) -> Task
    requires { at ≤ length input.now }
    ensures { result ≡ long_task input.now at }
{
    let n = input.len();
    if 142 <= n - at && marks::is(input[at], input[at + 1], b'S', b'P') {
        let runs = fields::number(input, at + 10);
        return Task::Skip(at, 14 + 8 * (runs as usize));
    }
    Task::Open(n)
}

// A job whose records end at a position, with no call there.
fn goes_on(input: &[u8], c: Coming, at: usize) -> Task
    requires { at ≡ records_end input.now }
    ensures { result ≡ goes_on c input.now }
{
    match c {
        Coming::More => Task::Wait,
        Coming::Full => long_task(input, at),
        Coming::Ended => Task::Open(input.len()),
    }
}

// A job.
#[tactic(auto, using(crate::specs::TaskLaws::ends_ok, crate::specs::TaskLaws::ends_err, crate::specs::TaskLaws::job_opens, crate::specs::TaskLaws::job_goes_ok, crate::specs::TaskLaws::job_goes_err))]
fn job_task(input: &[u8], c: Coming) -> Task
    ensures { result ≡ job_task c input.now }
{
    match job_end(input) {
        Ok(at) if at < input.len() => Task::Open(at),
        Ok(at) | Err(at) => goes_on(input, c, at),
    }
}

// A split that is skipped.
#[tactic(auto, unfolding(crate::specs::Tasks::skip_task))]
fn skip_task(
    input: &[u8],
    c: Coming,
    left: usize,
    whole: Result<(), Told>,
    cut: Result<(), Told>,
) -> Task
    ensures { result ≡ skip_task left whole cut c input.now }
{
    if left <= input.len() {
        return Task::Tell(whole);
    }
    let n = left - input.len();
    match c {
        Coming::More | Coming::Full => Task::Pass(Phase::Skip(n, whole, cut)),
        Coming::Ended => Task::Tell(cut),
    }
}

// Whether more may come.
fn may_come(c: Coming) -> bool
    ensures { result ≡ may_come c }
{
    matches!(c, Coming::More | Coming::Full)
}

// A call.
#[tactic(auto, using(crate::specs::TaskLaws::call_waits, crate::specs::TaskLaws::call_ends, crate::specs::TaskLaws::call_answers, crate::specs::TaskLaws::call_bad))]
fn call_task(input: &[u8], c: Coming) -> Task
    ensures { result ≡ call_task c input.now }
{
    if may_come(c) && input.len() < wanted(input, 0) {
        return Task::Wait;
    }
    if input.is_empty() {
        return Task::End;
    }
    match next_call(input, 0) {
        Some((call, next)) => Task::Answer(Some(call), next),
        None => Task::Answer(None, input.len()),
    }
}

// What is to be done, by what the session has come to and by what may follow.
pub fn task(input: &[u8], p: Phase, c: Coming) -> Task
    ensures { result ≡ task_of p c input.now }
{
    match p {
        Phase::Job => job_task(input, c),
        Phase::Skip(left, whole, cut) => skip_task(input, c, left, whole, cut),
        Phase::Calls => call_task(input, c),
        Phase::Over => Task::End,
    }
}

// The phase after a call: a bad one ends the session.
pub fn after(x: Option<Call>) -> Phase
    ensures { result ≡ does.after x }
{
    match x {
        Some(_) => Phase::Calls,
        None => Phase::Over,
    }
}

// Whether a job is refused by 2, as it is told.
fn told_two(v: Result<(), Told>) -> bool
    ensures { result ≡ does.told_two v }
{
    match v {
        Ok(()) => false,
        Err(t) => t.number == 2,
    }
}

// What a split with too many runs comes to if they all come: by the verdict of the job that it cuts short, and that of the records before it.
pub fn long_told(all: Result<(), Told>, front: Result<(), Told>) -> Result<(), Told>
    ensures { result ≡ does.long_told all front }
{
    if told_two(all) && !told_two(front) {
        Err(turn::tell_refusal(Refusal::PastLimit))
    } else {
        all
    }
}

// Whether a job is refused by 2.
fn is_two(v: Result<(), Refusal>) -> bool
    ensures { result ≡ does.is_two v }
{
    told_two(turn::tell_verdict(v))
}

// The same of what openings answer.
// kept: beside `long_told`, as what may not change: each gives what it takes, a refusal of a call or any number
pub fn long_verdict(all: Result<(), Refusal>, front: Result<(), Refusal>) -> Result<(), Refusal>
    ensures { result ≡ does.long_verdict all front }
{
    if is_two(all) && !is_two(front) {
        Err(Refusal::PastLimit)
    } else {
        all
    }
}

#[cfg(test)]
mod tests {
    use super::*;

    // 3 where the job that is cut short is refused by 2 and the records before it are not; else what that job comes to.
    #[test]
    fn too_many_runs(rt: HostRuntime) {
        let two = Err(Refusal::Malformed);
        assert!(rt; long_verdict(two, Ok(())) == Err(Refusal::PastLimit));
        assert!(rt; long_verdict(two, two) == two);
        assert!(rt; long_verdict(Err(Refusal::Unequal), Ok(())) == Err(Refusal::Unequal));
        assert!(rt; long_verdict(Ok(()), two) == Ok(()));
    }
}
