// What the leaves of a segment reach.
ghost use Rattle.std.specs.Prelude.{◌≡◌, ◌≤◌, length, ltb};
ghost use Rattle.rules.specs.Plan.{span_start, span_end};
ghost use Rattle.layout.specs.Numbers.{mark};
ghost use Rattle.tables.specs.View.{view};
ghost use Rattle.sharing.specs.Found.{meeting, reach_of, pairs_of};

use reach::{Reach, Span};
use tables::StateBytes;

// How many leaves have a reach, and how many pairs there are of such a leaf and a split that overlaps its reach.
#[derive(Clone, Copy, Default)]
pub(crate) struct Found {
    pub leaves: usize,
    pub pairs: usize,
}

// How many splits overlap a reach.
pub(crate) fn overlap_count(s: &StateBytes, r: Reach) -> usize
    ensures value { result ≡ length (meeting (view s.now).job r.start r.end) }
    ensures upper_bound { result ≤ 16 }
{
    let n = table_job::counts::split_count(s);
    let mut count = 0;
    for t in 0..n {
        count += usize::from(reach::within::meets(s, r, t));
    }
    count
}

// What a leaf with this reach adds.
fn found_in(s: &StateBytes, r: Reach) -> Found
    ensures leaves_value { result.leaves ≡ mark (ltb r.start r.end) }
    ensures pairs_value { result.pairs ≡ length (meeting (view s.now).job r.start r.end) }
    ensures leaves_bound { (result.leaves ≤ 1) × (result.pairs ≤ 16) }
{
    if r.start < r.end {
        return Found {
            leaves: 1,
            pairs: overlap_count(s, r),
        };
    }
    Found::default()
}

// What node l adds, if it is a leaf that names the segment.
pub(crate) fn found_at(s: &StateBytes, l: usize, segment: u32, span: Span) -> Found
    requires start_value { span.start ≡ span_start (view s.now).job.splits }
    requires end_value { span.end ≡ span_end (view s.now).job.splits }
    ensures leaves_value { result.leaves ≡ reach_of (view s.now).job segment l }
    ensures pairs_value { result.pairs ≡ pairs_of (view s.now).job segment l }
    ensures leaves_bound { (result.leaves ≤ 1) × (result.pairs ≤ 16) }
{
    if reach::leaves::names(s, l, segment) {
        return found_in(s, reach::within::reach_in(s, l, span));
    }
    Found::default()
}
