// All records, in sequence: those before the splits, then the splits.
ghost use Rattle.std.specs.Prelude.{◌≡◌, ◌≤◌, IfOk, IfErr};
ghost use Rattle.rules.specs.Job as rule;
ghost use Rattle.jobs.specs.Refusal.{outcome_by, refusal_of};
ghost use Rattle.node_records.specs.Draft.{reading_of, Fine};
ghost use Rattle.split_records.specs.Split.{all_of, AllLie};
ghost use Rattle.split_records.specs.Reading.{AtSplits};

use crate::{Records, splits};
use jobs::{Kind, NONE, Node, Refusal};
use node_records::{Draft, accept};
use records::reading;

// The draft that no record has come to.
fn empty() -> Draft
    ensures result_value { reading_of result ≡ rule.no_reading }
    ensures fine { Fine result }
{
    let node = Node {
        kind: Kind::Segment,
        segment: 0,
        rows: 0,
        width: 0,
        parent: NONE,
        at: 0,
    };
    Draft {
        slots: 0,
        nodes: [node; 24],
        node_count: 0,
        free: [0; 24],
        free_count: 0,
        labels: [0; 24],
        records: 0,
    }
}

// What the records before the first split come to, and where it stands or the bytes end; or the first refusal.
fn read_nodes(b: &[u8]) -> Result<(Draft, usize), Refusal>
    ensures at_splits { IfOk result (λ r. AtSplits b.now (reading_of r.0) r.1) }
    ensures fine { IfOk result (λ r. Fine r.0) }
    ensures refused { IfErr result (λ r. rule.records b.now ≡ rule.refused_by (refusal_of r)) }
{
    let mut d = empty();
    let mut at = 0;
    while at < b.len() {
        let Some((r, next)) = reading::next_record(b, at) else {
            return Err(Refusal::Malformed);
        };
        if accept::is_split(r) {
            return Ok((d, at));
        }
        accept::accept_record(&mut d, r)?;
        at = next;
    }
    Ok((d, at))
}

// What all the records of the job bytes come to: a draft and its splits, or the first refusal.
// kept: the loop counts no index, for each record ends where its bytes say.
pub fn read_records(b: &[u8]) -> Result<Records, Refusal>
    ensures result_value { outcome_by (all_of b.now) result ≡ rule.records b.now }
    ensures fine { IfOk result (λ r. Fine r.draft) }
    ensures all_lie { IfOk result (λ r. AllLie b.now r.splits r.split_count) }
    ensures split_count_bound { IfOk result (λ r. r.split_count ≤ 16) }
{
    let (draft, start) = read_nodes(b)?;
    let h = splits::head_of(draft);
    let mut splits = [splits::blank(); 16];
    let mut split_count = 0;
    let mut at = start;
    while at < b.len() {
        let Some((r, next)) = reading::next_record(b, at) else {
            return Err(Refusal::Malformed);
        };
        let x = splits::next_split(b, r, h, split_count)?;
        splits[split_count] = x;
        split_count += 1;
        at = next;
    }
    Ok(Records {
        draft,
        splits,
        split_count,
    })
}
