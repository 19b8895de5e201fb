// The first leaves of shared segments are marked: their sources are still to be made.
ghost use Rattle.std.specs.Prelude.{◌≡◌, true, length, map};
ghost use Rattle.rules.specs.Table.{up_from};
ghost use Rattle.rules.specs.Plan.{span_start, span_end};
ghost use Rattle.rules.specs.Machine.{shared_first, with_unbuilt};
ghost use Rattle.tables.specs.Change.{Becomes};
ghost use Rattle.tables.specs.View.{view, machine_len};
ghost use Rattle.check_job.specs.Seen.{Distinct};

use crate::shared::{is_alone_shared, is_shared};
use reach::Span;
use tables::{NodeIndex, StateBytes};

// Whether a node is the first leaf of a segment that is shared. Where the leaves are distinct, each is the first of its segment.
fn shared_first(s: &StateBytes, n: NodeIndex, span: Span, distinct: bool) -> bool
    requires start_value { span.start ≡ span_start (view s.now).job.splits }
    requires end_value { span.end ≡ span_end (view s.now).job.splits }
    requires distinct { distinct ≡ true → Distinct (view s.now).job.nodes }
    ensures { result ≡ shared_first (view s.now).job n.at }
{
    if !table_job::node_fields::is_leaf(s, n.at) {
        return false;
    }
    if distinct {
        return is_alone_shared(s, n.at, span);
    }
    reach::leaves::first_leaf(s, n) == n.at && is_shared(s, n.at, span)
}

// The sources of shared segments are still to be made. The span of the splits and whether the leaves are distinct are asked once.
pub fn mark_shared(s: &mut StateBytes)
    ensures marked { Becomes (λ m. with_unbuilt (map (shared_first m.job) (up_from 0 24)) m) s.old s.new }
    ensures size { length s.new ≡ machine_len }
{
    let span = reach::span::span_of(s);
    let distinct = match check_job::job::job_ok(s) {
        Ok(distinct) => distinct,
        Err(distinct) => distinct,
    };
    for i in 0..24 {
        let n = NodeIndex { at: i };
        let shared = shared_first(s, n, span, distinct);
        table_lists::flags::set_unbuilt(s, n, shared);
    }
}
