// What a leaf reaches: its root rows, cut to the span of the splits.
ghost use Rattle.std.specs.Prelude.{◌≡◌, ◌&&◌, ltb};
ghost use Rattle.rules.specs.Plan.{split_of, span_start, span_end, reach_start, reach_end, overlaps};
ghost use Rattle.tables.specs.View.{view};

use crate::span;
use crate::span::Span;
use tables::StateBytes;

// Rows of the root from `start` to `end`.
#[derive(Clone, Copy)]
pub struct Reach {
    pub start: u64,
    pub end: u64,
}

// The reach of a leaf in the span of the splits; without rows where the end is not past the start.
pub fn reach_in(s: &StateBytes, l: usize, span: Span) -> Reach
    requires start_value { span.start ≡ span_start (view s.now).job.splits }
    requires end_value { span.end ≡ span_end (view s.now).job.splits }
    ensures start_value_2 { result.start ≡ reach_start (view s.now).job l }
    ensures end_value_2 { result.end ≡ reach_end (view s.now).job l }
{
    let at = table_job::node_fields::first_row(s, l);
    let rows = table_job::node_fields::node_rows(s, l);
    Reach {
        start: at.max(u64::from(span.start)),
        end: at.saturating_add(u64::from(rows)).min(u64::from(span.end)),
    }
}

// The reach of a leaf.
pub fn reach_of(s: &StateBytes, l: usize) -> Reach
    ensures start_value { result.start ≡ reach_start (view s.now).job l }
    ensures end_value { result.end ≡ reach_end (view s.now).job l }
{
    reach_in(s, l, span::span_of(s))
}

// Whether split t overlaps a reach.
pub fn meets(s: &StateBytes, r: Reach, t: usize) -> bool
    ensures { result ≡ (ltb r.start r.end && ltb (split_of (view s.now).job t).start r.end
        && ltb r.start (split_of (view s.now).job t).end) }
{
    let start = table_job::split_fields::split_start(s, t);
    let end = table_job::split_fields::split_end(s, t);
    r.start < r.end && u64::from(start) < r.end && r.start < u64::from(end)
}

// Whether split t overlaps the reach of leaf l.
pub fn overlaps(s: &StateBytes, l: usize, t: usize) -> bool
    ensures { result ≡ overlaps (view s.now).job l t }
{
    meets(s, reach_of(s, l), t)
}
