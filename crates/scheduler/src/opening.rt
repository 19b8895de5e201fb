// Opening.
ghost use Rattle.rules.specs.Machine.{blank};
ghost use Rattle.plan.specs.Parse.{job_from, Fits};
ghost use Rattle.tables.specs.Change.{Becomes};
ghost use Rattle.scheduler.specs.Answers.{Opens};
ghost use Rattle.scheduler.specs.Opening.{marked};

use jobs::Refusal;
use plan::{Parsed, parse};
use tables::{MACHINE_LEN, PublishedBytes, STATE_LEN};

// The machine of a job that was read, at the front of a state: nothing is in use, and the sources of shared segments are still to be made.
fn make(s: &mut PublishedBytes, job: &[u8], p: Parsed)
    requires fits { Fits job.now p }
    ensures { Becomes (λ m. marked (blank (job_from job.now p))) s.old s.new }
{
    let machine = s.first_chunk_mut::<MACHINE_LEN>().unwrap();
    table_blank::job::make_read(machine, job, p);
    sharing::marking::mark_shared(machine);
}

// A scan is opened on a state of its length.
fn open_in(job: &[u8], s: &mut PublishedBytes) -> Result<(), Refusal>
    ensures { Opens job.now s.old result s.new }
{
    let p = parse::read_job(job)?;
    let labels = p.labels;
    make(s, job, p);
    table_blank::labels::store_labels(s, labels);
    Ok(())
}

// A scan is opened on a lent state. A state that is too short is refused by 1, a job by its first fault, 2 to 8, or 17 to 19 with the index of
// the run at fault: the state stays as it is. The job's bytes are only read.
pub fn open(job: &[u8], s: &mut [u8]) -> Result<(), Refusal>
    ensures { Opens job.now s.old result s.new }
{
    let Some(state) = s.first_chunk_mut::<STATE_LEN>() else {
        return Err(Refusal::StateTooShort);
    };
    open_in(job, state)
}
