// A job read from its bytes.
ghost use Rattle.std.specs.Prelude.{◌≡◌, IfOk};
ghost use Rattle.rules.specs.Job as rule;
ghost use Rattle.jobs.specs.Refusal.{outcome_by};
ghost use Rattle.plan.specs.Parse.{job_from, labels_of, Fits, end_fault};

use crate::{Parsed, place};
use jobs::Refusal;
use split_records::reader;

// What the end of the records finds: no slots, no node, or not one root.
fn end_fault(slots: u8, nodes: usize, free: usize) -> Result<(), Refusal>
    ensures { result ≡ end_fault slots nodes free }
{
    if slots == 0 {
        return Err(Refusal::Malformed);
    }
    if nodes == 0 {
        return Err(Refusal::PastLimit);
    }
    if free != 1 {
        return Err(Refusal::NotATree);
    }
    Ok(())
}

// The job that the bytes hold, or the first refusal.
pub fn read_job(b: &[u8]) -> Result<Parsed, Refusal>
    ensures result_value { outcome_by (job_from b.now) result ≡ rule.parse b.now }
    ensures fits { IfOk result (Fits b.now) }
    ensures labels { IfOk result (λ r. labels_of r ≡ rule.labels b.now) }
{
    let s = reader::read_records(b)?;
    let d = s.draft;
    end_fault(d.slots, d.node_count, d.free_count)?;
    let table = d.nodes;
    let nodes = place::place(table, d.node_count);
    let labels = d.labels;
    let splits = s.splits;
    Ok(Parsed {
        slots: d.slots,
        nodes,
        node_count: d.node_count,
        labels,
        splits,
        split_count: s.split_count,
    })
}
