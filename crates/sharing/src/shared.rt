// Whether a segment is shared.
ghost use Rattle.std.specs.Prelude.{◌≡◌, true};
ghost use Rattle.rules.specs.Plan.{span_start, span_end, is_leaf, is_shared};
ghost use Rattle.tables.specs.View.{view};
ghost use Rattle.check_job.specs.Seen.{Distinct};

use crate::found::{found_at, overlap_count};
use reach::Span;
use tables::StateBytes;

// Whether two leaves with a reach name the segment of leaf g, or two splits overlap its reach.
pub(crate) fn is_shared(s: &StateBytes, g: usize, span: Span) -> bool
    requires start_value { span.start ≡ span_start (view s.now).job.splits }
    requires end_value { span.end ≡ span_end (view s.now).job.splits }
    ensures { result ≡ is_shared (view s.now).job g }
{
    let n = table_job::counts::node_count(s);
    let segment = table_job::node_fields::node_segment(s, g);
    let mut leaves = 0;
    let mut pairs = 0;
    for l in 0..n {
        let f = found_at(s, l, segment, span);
        leaves += f.leaves;
        pairs += f.pairs;
    }
    1 < leaves || 1 < pairs
}

// The same where no two leaves name one segment: whether two splits overlap the leaf's reach.
pub(crate) fn is_alone_shared(s: &StateBytes, g: usize, span: Span) -> bool
    requires start_value { span.start ≡ span_start (view s.now).job.splits }
    requires end_value { span.end ≡ span_end (view s.now).job.splits }
    requires distinct { Distinct (view s.now).job.nodes }
    requires g_value { is_leaf (view s.now).job g ≡ true }
    ensures { result ≡ is_shared (view s.now).job g }
{
    1 < overlap_count(s, reach::within::reach_in(s, g, span))
}
