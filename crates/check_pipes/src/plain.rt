// A plain source: of a segment, before its first run, without inlets. A pipeline of a segment that is not shared begins as one, so this is tested first.
ghost use Rattle.std.specs.Prelude.{◌≡◌, true, ◌<◌};
ghost use Rattle.operator.specs.Pipeline.{pipeline_of};
ghost use Rattle.table_pipes.specs.Source.{source_of};
ghost use Rattle.tables.specs.View.{view};
ghost use Rattle.check_pipes.specs.Pipes.{live_ok};
ghost use Rattle.check_pipes.specs.Plain.{is_new, is_plain, Alone};

use crate::ends::outlet_in_use;
use crate::stage::stage_in_range;
use crate::state::state_ok;
use operator::Pipeline;
use table_pipes::Source;
use table_sets::sets::{Changed, Touched, is_empty};
use tables::{PipeIndex, StateBytes};

// Whether a source is of a segment of which no run was emitted.
fn is_new(x: Source) -> bool
    ensures { result ≡ is_new (source_of x) }
{
    matches!(x, Source::Segment(y) if y.emitted == 0)
}

// Whether the pipeline at a place has no inlets and notes none.
fn is_alone(s: &StateBytes, p: PipeIndex) -> bool
    ensures { result ≡ true → Alone (view s.now) p.at }
{
    table_pipes::inlets::inlet_count(s, p) == 0
        && is_empty::<Changed>(s, p)
        && is_empty::<Touched>(s, p)
}

// Whether the source of a pipeline that lives is plain, and what is not of its inlets in range.
fn is_plain(s: &StateBytes, p: PipeIndex, x: Pipeline) -> bool
    ensures { result ≡ is_plain (view s.now) p.at (pipeline_of x) }
{
    is_new(table_pipes::source_table::load_source(s, p))
        && table_job::node_fields::is_leaf(s, p.at % 24)
        && check_parts::places::place_ok(s, p.at)
        && x.number < table_lists::counters::made(s)
        && stage_in_range(s, p)
        && state_ok(p.at, 0, x.state)
        && outlet_in_use(s, p.at)
}

// Whether a pipeline that lives is a plain source and in range. Of others it says nothing.
pub(crate) fn plain_ok(s: &StateBytes, p: PipeIndex, x: Pipeline) -> bool
    ensures { result ≡ true → true ≡ live_ok (view s.now) p.at (pipeline_of x) }
{
    is_alone(s, p) && is_plain(s, p, x)
}
