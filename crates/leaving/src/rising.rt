// Pipelines go by rising number: those of a slot, or, as slot 3, the shared sources that nobody reads.
ghost use Rattle.std.specs.Prelude.{◌≡◌, ◌<◌};
ghost use Rattle.std.proofs.Math.Option.{some};
ghost use Rattle.laws.specs.JobOk.{JobOk};
ghost use Rattle.order.specs.Ranged.{Ranged};
ghost use Rattle.tables.specs.Change.{Becomes};
ghost use Rattle.tables.specs.View.{view};
ghost use Rattle.leaving.specs.Found.{place_of};
ghost use Rattle.leaving.specs.Rising.{better};
ghost use Rattle.leaving.specs.Going.{may_go, picked, next_of, retire_rising};

use tables::{PipeIndex, StateBytes};

// Whether a pipeline at place p would go: one of a slot does, a shared source where nobody reads it.
fn may_go(s: &StateBytes, p: PipeIndex) -> bool
    requires job_ok { JobOk (view s.now).job }
    ensures { result ≡ may_go (view s.now) p.at }
{
    p.at < 72 || outlets::unread::is_unread(s, p.at)
}

// The pipeline at p where its number is less than that of the one at b, which stands before it.
fn lesser(s: &StateBytes, b: PipeIndex, p: PipeIndex) -> PipeIndex
    ensures { some result.at ≡ better (view s.now).pipes (some b.at) (some p.at) }
{
    let x = table_pipes::pipes::load_pipe(s, b);
    let y = table_pipes::pipes::load_pipe(s, p);
    if y.number < x.number { p } else { b }
}

// The best one so far, or the pipeline at p.
fn pick(s: &StateBytes, p: PipeIndex, best: Option<PipeIndex>) -> Option<PipeIndex>
    requires job_ok { JobOk (view s.now).job }
    ensures { place_of result ≡ picked (view s.now) p.at (place_of best) }
{
    if !table_pipes::pipes::is_live(s, p) {
        return best;
    }
    if !may_go(s, p) {
        return best;
    }
    match best {
        None => Some(p),
        Some(b) => Some(lesser(s, b, p)),
    }
}

// The one of slot k that goes next.
fn next(s: &StateBytes, k: usize) -> Option<PipeIndex>
    requires k_bound { k < 4 }
    requires job_ok { JobOk (view s.now).job }
    ensures { place_of result ≡ next_of (view s.now) k }
{
    let mut best = None;
    for i in 0..24 {
        best = pick(s, PipeIndex { at: 24 * k + i }, best);
    }
    best
}

// All that go.
pub(crate) fn retire_rising(s: &mut StateBytes, k: usize)
    requires k_bound { k < 4 }
    requires ranged { Ranged (view s.old) }
    ensures { Becomes (retire_rising k) s.old s.new }
{
    while let Some(p) = next(s, k) {
        pipelines::retiring::withdraw(s, p);
    }
}
