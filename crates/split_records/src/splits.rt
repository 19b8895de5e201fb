// The record SP: a split and its runs, and any record among the splits.
ghost use Rattle.std.specs.Prelude.{◌≡◌, ◌||◌, List, ◌+◌, ◌*◌, ◌≤◌, length, eqb, leb, ltb, IfOk, OnOk};
ghost use Rattle.rules.specs.Job as rule;
ghost use Rattle.records.specs.Read.{run_at, runs_at, record_of, RunsEnd};
ghost use Rattle.jobs.specs.Job.{run_of};
ghost use Rattle.jobs.specs.Refusal.{fault_of, judged};
ghost use Rattle.node_records.specs.Draft.{draft_with, Fine};
ghost use Rattle.split_records.specs.Split.{cut_on, outline_of, Heads, Lies, no_outline};
ghost use Rattle.split_records.specs.Reading.{LateBut};

use crate::{Head, Outline};
use jobs::{Refusal, Run};
use node_records::Draft;
use records::{Record, fields};

// The run at a position of the job bytes.
pub fn run_at(b: &[u8], at: usize) -> Run
    requires { at + 8 ≤ length b.now }
    ensures { run_of result ≡ run_at b.now at }
{
    Run {
        start: fields::number(b, at),
        size: fields::number(b, at + 4),
    }
}

// Where a run ends.
pub fn end_of(x: Run) -> u64
    ensures { result ≡ x.start + x.size }
{
    u64::from(x.start) + u64::from(x.size)
}

// The first of the n runs from a position on that is at fault.
fn read_faults(b: &[u8], at: usize, n: usize, size: u64) -> Result<(), Refusal>
    requires n_in_bounds { at + 8 * n ≤ length b.now }
    requires n_le_max_runs { n ≤ rule.max_runs }
    ensures { fault_of result ≡ rule.read_faults size 0 0 (runs_at b.now at n) }
{
    let mut last: u64 = 0;
    for i in 0..n {
        let x = run_at(b, at + 8 * i);
        let start = u64::from(x.start);
        let end = end_of(x);
        if x.size == 0 {
            return Err(Refusal::EmptyRun(i as u8));
        }
        if start < last {
            return Err(Refusal::RunBeforeEnd(i as u8));
        }
        if size < end {
            return Err(Refusal::RunPastSplit(i as u8));
        }
        last = end;
    }
    Ok(())
}

// What the splits behind a draft are checked against.
pub(crate) fn head_of(d: Draft) -> Head
    requires { Fine d }
    ensures { (xs : List rule.Split) → Heads (draft_with d xs) result (length xs) }
{
    let n = d.node_count;
    Head {
        slots: d.slots,
        nodes: n,
        free: d.free_count,
        rows: if 0 < n { d.nodes[n - 1].rows } else { 0 },
    }
}

// Whether there is no node, no room for a split after `count`, or too many runs.
fn over_limit(h: Head, count: usize, n: usize) -> bool
    ensures { result ≡ (eqb h.nodes 0 || leb rule.max_splits count || ltb rule.max_runs n) }
{
    h.nodes == 0 || 16 <= count || 16 < n
}

// Whether a split starts after its end, or ends past the plan.
fn bad_range(h: Head, s: u32, e: u32) -> bool
    ensures { result ≡ (ltb e s || ltb h.rows e) }
{
    e < s || h.rows < e
}

// No split.
pub(crate) fn blank() -> Outline
    ensures { result ≡ no_outline }
{
    Outline {
        start: 0,
        end: 0,
        count: 0,
        at: 0,
    }
}

// Why a split is refused behind `count` others.
fn split_fault(b: &[u8], x: Outline, h: Head, count: usize) -> Result<(), Refusal>
    requires { x.at + 8 * x.count ≤ length b.now }
    ensures result_value { (d : rule.Draft) → Heads d h count →
        judged result (rule.new_split (outline_of b.now x) d) ≡ rule.accept_split x.start x.end (runs_at b.now x.at x.count) d }
    ensures lies { OnOk result (Lies b.now x) }
{
    if h.slots == 0 {
        return Err(Refusal::Malformed);
    }
    if over_limit(h, count, x.count) {
        return Err(Refusal::PastLimit);
    }
    if h.free != 1 {
        return Err(Refusal::NotATree);
    }
    if bad_range(h, x.start, x.end) {
        return Err(Refusal::BadRange);
    }
    read_faults(b, x.at, x.count, u64::from(x.end - x.start))
}

// The split of a record behind `count` splits, where any other record is out of sequence.
pub fn next_split(b: &[u8], r: Record, h: Head, count: usize) -> Result<Outline, Refusal>
    requires { RunsEnd b.now r }
    ensures result_value { (x : rule.Reading) → Heads x.draft h count → LateBut (record_of b.now r) x →
        cut_on b.now x result ≡ rule.accept (record_of b.now r) x }
    ensures lies { IfOk result (Lies b.now) }
{
    match r {
        Record::Split(start, end, n, at) => {
            let x = Outline {
                start,
                end,
                count: n as usize,
                at,
            };
            split_fault(b, x, h, count)?;
            Ok(x)
        }
        _ => Err(Refusal::Malformed),
    }
}
