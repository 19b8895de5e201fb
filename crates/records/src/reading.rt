// One record of the job bytes. A record is read whole before it is checked.
ghost use Rattle.std.specs.Prelude.{◌≡◌, ◌+◌, ◌<◌, drop};
ghost use Rattle.rules.specs.Job.{leaf_fields, split_fields, next_record};
ghost use Rattle.records.specs.Read.{read_of, ReadEnds};

use crate::{Mark, Record, fields, marks};

// A leaf: its segment and its rows.
fn leaf_fields(b: &[u8], at: usize) -> Option<(Record, usize)>
    ensures result_value { read_of b.now result ≡ leaf_fields (drop at b.now) }
    ensures read_ends { ReadEnds b.now at result }
{
    let (g, p) = fields::word(b, at)?;
    let (n, next) = fields::word(b, p)?;
    Some((Record::Leaf(g, n), next))
}

// A split: its start and end, the number of its runs, and the runs.
fn split_fields(b: &[u8], at: usize) -> Option<(Record, usize)>
    ensures result_value { read_of b.now result ≡ split_fields (drop at b.now) }
    ensures read_ends { ReadEnds b.now at result }
{
    let (s, p) = fields::word(b, at)?;
    let (e, q) = fields::word(b, p)?;
    let (n, from) = fields::word(b, q)?;
    let size = 8 * n as usize;
    if b.len() - from < size {
        return None;
    }
    Some((Record::Split(s, e, n, from), from + size))
}

// The record at a position, and the position after it; none where the bytes are cut short or the mark is unknown.
#[tactic(auto, using(crate::proofs::ByMark::record_at, crate::proofs::ByMark::record_short))]
pub fn next_record(b: &[u8], at: usize) -> Option<(Record, usize)>
    ensures result_value { read_of b.now result ≡ next_record (drop at b.now) }
    ensures read_ends { ReadEnds b.now at result }
{
    if b.len() < 2 || b.len() - 2 < at {
        return None;
    }
    let p = at + 2;
    match marks::mark(b[at], b[at + 1]) {
        Mark::Slots => {
            let (n, next) = fields::word(b, p)?;
            Some((Record::Slots(n), next))
        }
        Mark::Leaf => leaf_fields(b, p),
        Mark::Concat => {
            let (n, next) = fields::word(b, p)?;
            Some((Record::Concat(n), next))
        }
        Mark::Pack => {
            let (n, next) = fields::word(b, p)?;
            Some((Record::Pack(n), next))
        }
        Mark::Split => split_fields(b, p),
        Mark::Unknown => None,
    }
}
