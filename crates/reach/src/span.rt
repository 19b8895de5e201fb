// The span of the splits: from the smallest start to the largest end.
ghost use Rattle.std.specs.Prelude.{◌≡◌};
ghost use Rattle.rules.specs.Plan.{span_start, span_end};
ghost use Rattle.tables.specs.View.{view};

use tables::StateBytes;

// Rows of the root from `start` to `end`.
#[derive(Clone, Copy)]
pub struct Span {
    pub start: u32,
    pub end: u32,
}

// The smallest start; 0 where there are no splits.
fn span_start(s: &StateBytes) -> u32
    ensures { result ≡ span_start (view s.now).job.splits }
{
    let n = table_job::counts::split_count(s);
    if n == 0 {
        return 0;
    }
    let mut least = table_job::split_fields::split_start(s, n - 1);
    for k in (0..n - 1).rev() {
        least = table_job::split_fields::split_start(s, k).min(least);
    }
    least
}

// The largest end.
// kept: apart from `span_start`, which has no number to begin with where there are splits.
fn span_end(s: &StateBytes) -> u32
    ensures { result ≡ span_end (view s.now).job.splits }
{
    let n = table_job::counts::split_count(s);
    let mut most = 0;
    for k in (0..n).rev() {
        most = table_job::split_fields::split_end(s, k).max(most);
    }
    most
}

// The span of the splits.
pub fn span_of(s: &StateBytes) -> Span
    ensures start_value { result.start ≡ span_start (view s.now).job.splits }
    ensures end_value { result.end ≡ span_end (view s.now).job.splits }
{
    Span {
        start: span_start(s),
        end: span_end(s),
    }
}
