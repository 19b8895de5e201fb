// The source that emits its inlets one after another.
ghost use Rattle.std.specs.Prelude.{◌≡◌, ◌-◌, ◌≤◌, ◌<◌, length};
ghost use Rattle.rules.specs.Operators.{concat_at, concat_ready};
ghost use Rattle.rules.specs.Machine.{inlets_at, shows};
ghost use Rattle.rules.specs.Drive.{test_concat, concat_step};
ghost use Rattle.laws.specs.Rows.{All};
ghost use Rattle.operator.specs.Answer.{ready_of, step_of, width_of};
ghost use Rattle.order.specs.Inv.{Live};
ghost use Rattle.order.specs.RangeParts.{Fits};
ghost use Rattle.tables.specs.Change.{Becomes};
ghost use Rattle.tables.specs.View.{view};

use crate::{inlets, taking, touching};
use concat_source::ConcatSource;
use operator::{SourceReady, Step};
use queue::seen::has_ended;
use table_pipes::Source;
use tables::{PipeIndex, PortIndex, StateBytes};

// The first inlet from i on that has not ended, or n.
fn passed(s: &StateBytes, p: PipeIndex, i: usize, n: usize) -> usize
    requires i_le_n { i ≤ n }
    requires n_value { n ≡ length (inlets_at (view s.now) p.at) }
    requires all { All (λ x. x < 456) (inlets_at (view s.now) p.at) }
    ensures value { result ≡ concat_at (shows (view s.now) p.at) (n - i) i }
    ensures upper_bound { result ≤ n }
{
    for at in i..n {
        if !has_ended(inlets::shows(s, p, at)) {
            return at;
        }
    }
    n
}

// What it answers at an inlet, or past the last.
fn answer(s: &StateBytes, p: PipeIndex, at: usize, n: usize) -> SourceReady
    requires n_bound { n ≤ 23 }
    requires n_value { n ≡ length (inlets_at (view s.now) p.at) }
    requires all { All (λ x. x < 456) (inlets_at (view s.now) p.at) }
    ensures { ready_of result ≡ concat_ready (shows (view s.now) p.at) n at }
{
    if n <= at {
        return SourceReady::Ready;
    }
    concat_source::at_inlet(inlets::shows(s, p, at), at as u8)
}

// The test of a concat: it goes past the inlets that have ended, and reads those and the one that it comes to.
pub(crate) fn test(s: &mut StateBytes, p: PipeIndex, i: usize) -> SourceReady
    requires i_in_bounds { i ≤ length (inlets_at (view s.old) p.at) }
    requires fits { Fits (view s.old) }
    requires live { Live (view s.old).pipes p.at }
    ensures result_value { ready_of result ≡ (test_concat p.at i (view s.old)).0 }
    ensures becomes { Becomes (λ m. (test_concat p.at i m).1) s.old s.new }
{
    let n = table_pipes::inlets::inlet_count(s, p);
    let at = passed(s, p, i, n);
    let ready = answer(s, p, at, n);
    let source = Source::Concat(ConcatSource { current: at as u8 });
    table_pipes::source_table::store_source(s, p, source);
    touching::touch_from(s, p, i, n.min(at + 1));
    ready
}

// It gives the front batch of its inlet.
pub(crate) fn step(s: &mut StateBytes, p: PipeIndex, i: usize) -> Step
    requires i_in_bounds { i ≤ length (inlets_at (view s.old) p.at) }
    requires fits { Fits (view s.old) }
    requires live { Live (view s.old).pipes p.at }
    ensures result_value { step_of result ≡ (concat_step p.at i (view s.old)).0 }
    ensures width_bound { width_of result ≤ 4 }
    ensures becomes { Becomes (λ m. (concat_step p.at i m).1) s.old s.new }
{
    let n = table_pipes::inlets::inlet_count(s, p);
    if i == n {
        return Step::End;
    }
    let x = table_pipes::inlets::inlet(s, p, i);
    touching::touch(s, p, i);
    taking::take_front(s, PortIndex { at: x })
}
