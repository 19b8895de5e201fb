// Whatever the source is.
// kept: a match of three arms: a trait over the three sources would name the same six functions, whose promises differ.
ghost use Rattle.std.specs.Prelude.{◌≡◌, ◌≤◌, ◌<◌, length};
ghost use Rattle.rules.specs.Machine.{source_at};
ghost use Rattle.rules.specs.Drive.{test_source, source_step};
ghost use Rattle.operator.specs.Answer.{ready_of, step_of, width_of};
ghost use Rattle.order.specs.Inv.{Live};
ghost use Rattle.order.specs.RangeParts.{Fits};
ghost use Rattle.tables.specs.Change.{Becomes};
ghost use Rattle.tables.specs.View.{view};

use crate::{concat, pack, segment};
use operator::{SourceReady, Step};
use table_pipes::Source;
use tables::{PipeIndex, StateBytes};

// The test of the source of the pipeline at a place.
pub fn test_source(s: &mut StateBytes, p: PipeIndex) -> SourceReady
    requires fits { Fits (view s.old) }
    requires live { Live (view s.old).pipes p.at }
    requires s_len_bound { length (view s.old).news < 24 }
    ensures result_value { ready_of result ≡ (test_source p.at (source_at (view s.old) p.at) (view s.old)).0 }
    ensures becomes { Becomes (λ m. (test_source p.at (source_at m p.at) m).1) s.old s.new }
{
    match table_pipes::source_table::load_source(s, p) {
        Source::Segment(y) => segment::test(s, p, y),
        Source::Concat(y) => concat::test(s, p, usize::from(y.current)),
        Source::Pack => pack::test(s, p),
    }
}

// What the source of the pipeline at a place gives.
pub fn source_step(s: &mut StateBytes, p: PipeIndex) -> Step
    requires fits { Fits (view s.old) }
    requires live { Live (view s.old).pipes p.at }
    ensures result_value { step_of result ≡ (source_step p.at (source_at (view s.old) p.at) (view s.old)).0 }
    ensures width_bound { width_of result ≤ 4 }
    ensures becomes { Becomes (λ m. (source_step p.at (source_at m p.at) m).1) s.old s.new }
{
    match table_pipes::source_table::load_source(s, p) {
        Source::Segment(y) => segment::step(s, p, y),
        Source::Concat(y) => concat::step(s, p, usize::from(y.current)),
        Source::Pack => pack::step(s, p),
    }
}
