// Where the job ends.
ghost use Rattle.std.specs.Prelude.{◌≡◌, ◌-◌, length, drop};
ghost use Rattle.rules.specs.Session as rule;
ghost use Rattle.call_records.specs.JobEnd.{job_end};

use records::{marks, reading};

// Whether two bytes are a call's mark.
fn is_call(x: u8, y: u8) -> bool
    ensures { result ≡ rule.is_call x y }
{
    marks::is(x, y, b'S', b'T') || marks::is(x, y, b'D', b'L')
}

// Whether the job ends at a position: there is a call's mark, or nothing.
#[tactic(auto, using(crate::specs::Job::at_end, crate::specs::Job::at_last, crate::specs::Job::at_two))]
fn at_call(b: &[u8], at: usize) -> bool
    ensures { result ≡ rule.at_call (drop at b.now) }
{
    b.len() <= at || (2 <= b.len() - at && is_call(b[at], b[at + 1]))
}

// Where the records of a job end, passed over one after another: at a call or with the bytes, or else at what is no whole record.
pub fn job_end(b: &[u8]) -> Result<usize, usize>
    ensures { result ≡ job_end b.now }
{
    let mut at: usize = 0;
    while !at_call(b, at) {
        let Some((_, next)) = reading::next_record(b, at) else {
            return Err(at);
        };
        at = next;
    }
    Ok(at)
}

// How many bytes at the front are the job's.
#[tactic(auto, using(crate::specs::Job::job_length))]
pub fn job_len(b: &[u8]) -> usize
    ensures { result ≡ length b.now - rule.behind_job (length b.now) b.now }
{
    job_end(b).unwrap_or(b.len())
}
