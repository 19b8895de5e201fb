// The cut only on a claimed leaf, within its runs; it alone continues.
ghost use Rattle.std.specs.Prelude.{◌≡◌, ◌&&◌, ◌||◌, not, ◌<◌, leb, length};
ghost use Rattle.rules.specs.Table.{given};
ghost use Rattle.rules.specs.Machine.{pieces_at, stage_at};
ghost use Rattle.rules.specs.Check.{at_most, is_shared, stage_ok};
ghost use Rattle.numbers.specs.Opt.{option_of};
ghost use Rattle.table_pipes.specs.Stage.{stage_of};
ghost use Rattle.tables.specs.View.{view, Sized};

use table_pipes::Stage;
use tables::front::machine;
use tables::{PipeIndex, StateBytes};

// Whether a number is at most n, where there is one.
fn within(n: usize, x: Option<u8>) -> bool
    ensures { result ≡ at_most n (option_of x) }
{
    match x {
        None => true,
        Some(i) => usize::from(i) <= n,
    }
}

// Whether there is a number.
fn is_given(x: Option<u8>) -> bool
    ensures { result ≡ given (option_of x) }
{
    x.is_some()
}

// Whether a cut of i runs is within those at a place, which a shared port feeds.
fn run_ok(s: &StateBytes, p: PipeIndex, i: usize) -> bool
    ensures { result ≡ (leb i (length (pieces_at (view s.now) p.at)) && is_shared (view s.now) p.at) }
{
    i <= check_sources::runs::run_count(s, p) && check_sources::fed::fed_shared(s, p)
}

// The same where there is a cut: only then the runs are counted.
fn cut_ok(s: &StateBytes, p: PipeIndex, cut: Option<u8>) -> bool
    ensures { result ≡ (at_most (length (pieces_at (view s.now) p.at)) (option_of cut)
        && (is_shared (view s.now) p.at || not (given (option_of cut)))) }
{
    match cut {
        None => true,
        Some(i) => run_ok(s, p, usize::from(i)),
    }
}

// Whether a stage that was loaded is in its range.
fn fits(s: &StateBytes, p: PipeIndex, x: Stage) -> bool
    ensures { result ≡ stage_ok (view s.now) p.at (stage_of x) }
{
    let cuts = is_given(x.cut);
    cut_ok(s, p, x.cut) && (cuts || !x.continuing) && within(usize::from(cuts), x.finishing)
}

// Whether the stage at a place is in its range.
pub(crate) fn stage_in_range(s: &StateBytes, p: PipeIndex) -> bool
    ensures { result ≡ stage_ok (view s.now) p.at (stage_at (view s.now) p.at) }
{
    fits(s, p, table_pipes::stages::load_stage(s, p))
}

// The same in any bytes that have a machine.
pub fn stage_ok(s: &[u8], p: PipeIndex) -> bool
    requires sized { Sized s.now }
    ensures { result ≡ stage_ok (view s.now) p.at (stage_at (view s.now) p.at) }
{
    stage_in_range(machine(s), p)
}
