// The source of one segment's kept runs.
ghost use Rattle.std.specs.Prelude.{◌≡◌, ◌≤◌, ◌<◌, length};
ghost use Rattle.rules.specs.Drive.{test_segment, segment_step};
ghost use Rattle.operator.specs.Answer.{ready_of, step_of, width_of};
ghost use Rattle.tables.specs.Change.{Becomes};
ghost use Rattle.tables.specs.View.{view};

use crate::asking;
use operator::{SourceReady, Step};
use segment_source::SegmentSource;
use table_pipes::Source;
use tables::{PipeIndex, StateBytes};

// The test of a segment source: it asks for its read when it is first tested.
pub(crate) fn test(s: &mut StateBytes, p: PipeIndex, x: SegmentSource) -> SourceReady
    requires s_len_bound { length (view s.old).news < 24 }
    ensures result_value { ready_of result ≡ (test_segment p.at x.asked x.bytes x.emitted (view s.old)).0 }
    ensures becomes { Becomes (λ m. (test_segment p.at x.asked x.bytes x.emitted m).1) s.old s.new }
{
    let t = x.ready();
    if x.asked {
        return t.ready;
    }
    table_pipes::source_table::store_source(s, p, Source::Segment(t.source));
    asking::ask(s, p);
    t.ready
}

// It gives its next run; a cause of 14 where its bytes have not come.
pub(crate) fn step(s: &mut StateBytes, p: PipeIndex, x: SegmentSource) -> Step
    ensures result_value { step_of result ≡ (segment_step p.at x.asked x.bytes x.emitted (view s.old)).0 }
    ensures width_bound { width_of result ≤ 4 }
    ensures becomes { Becomes (λ m. (segment_step p.at x.asked x.bytes x.emitted m).1) s.old s.new }
{
    if !x.came() {
        table_lists::causes::fault_if(s, true);
        return Step::End;
    }
    let (step, source) = x.compute(reach::places::pieces_at(s, p));
    table_pipes::source_table::store_source(s, p, Source::Segment(source));
    step.trimmed()
}
