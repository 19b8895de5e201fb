// Inlets that were read in the run in progress.
ghost use Rattle.std.specs.Prelude.{◌≡◌, [], ◌∷◌, ◌-◌, ◌≤◌, ◌<◌};
ghost use Rattle.rules.specs.Table.{get, up_from};
ghost use Rattle.rules.specs.Drive.{touch};
ghost use Rattle.order.specs.RangeParts.{SetFits};
ghost use Rattle.tables.specs.Change.{Becomes};
ghost use Rattle.tables.specs.View.{view};

use inlet_set::lent;
use table_sets::sets::{self, Touched};
use tables::{PipeIndex, StateBytes};

// The pipeline at a place reads the inlets from i on, below n: its set of different inlets has place for them, is lent, and has them then.
pub(crate) fn touch_from(s: &mut StateBytes, p: PipeIndex, i: usize, n: usize)
    requires set_fits { SetFits 23 (get [] (view s.old).touched p.at) }
    requires n_bound { n ≤ 23 }
    ensures { Becomes (touch p.at (up_from i (n - i))) s.old s.new }
{
    let mut set = sets::load::<Touched>(s, p);
    for k in i..n {
        lent::insert(&mut set, k as u8);
    }
    sets::store::<Touched>(s, p, set);
}

// It reads one.
pub(crate) fn touch(s: &mut StateBytes, p: PipeIndex, i: usize)
    requires set_fits { SetFits 23 (get [] (view s.old).touched p.at) }
    requires i_bound { i < 23 }
    ensures { Becomes (touch p.at (i ∷ [])) s.old s.new }
{
    touch_from(s, p, i, i + 1);
}
