// After a run readers are woken first, by outlet, then the writers of the inlets that were read.
ghost use Rattle.std.specs.Prelude.{◌≡◌, map, reverse, ◌≤◌, ◌<◌, length};
ghost use Rattle.rules.specs.Table.{get};
ghost use Rattle.rules.specs.Wake.{wake_writers};
ghost use Rattle.rules.specs.Drive.{wake_neighbours};
ghost use Rattle.inlet_set.specs.InletSet.{set_of};
ghost use Rattle.numbers.specs.Opt.{option_of};
ghost use Rattle.table_pipes.specs.Inlets.{inlets_of};
ghost use Rattle.order.specs.Inv.{Live};
ghost use Rattle.order.specs.RangeParts.{Fits};
ghost use Rattle.tables.specs.Change.{Becomes};
ghost use Rattle.tables.specs.View.{view};
ghost use Rattle.running.specs.Neighbours.{wake_at};

use inlet_set::InletSet;
use table_pipes::Inlets;
use table_sets::sets::{self, Touched};
use tables::{PipeIndex, StateBytes};

// The port of an inlet; past the last there is none, and it is given as 0.
fn port_of(xs: Inlets, i: u8) -> usize
    requires { xs.len ≤ 23 }
    ensures { result ≡ get 0 (inlets_of xs) i }
{
    let k = usize::from(i);
    if k < xs.len {
        usize::from(xs.ports[k])
    } else {
        0
    }
}

// The writer of one inlet.
fn wake_inlet(s: &mut StateBytes, xs: Inlets, i: Option<u8>)
    requires len_bound { xs.len ≤ 23 }
    ensures { Becomes (wake_at (get 0 (inlets_of xs)) (option_of i)) s.old s.new }
{
    if let Some(k) = i {
        waking::writer::wake_writer(s, port_of(xs, k));
    }
}

// The writers of a set of inlets, the oldest first.
fn wake_touched(s: &mut StateBytes, xs: Inlets, t: InletSet)
    requires len_bound { xs.len ≤ 23 }
    ensures { Becomes (wake_writers (map (get 0 (inlets_of xs)) (reverse (set_of t)))) s.old s.new }
{
    let n = t.len();
    for k in 0..n {
        wake_inlet(s, xs, t.get(k));
    }
}

// The readers of what the pipeline at p wrote, then the writers of what it read.
pub(crate) fn wake_neighbours(s: &mut StateBytes, p: PipeIndex)
    requires fits { Fits (view s.old) }
    requires live { Live (view s.old).pipes p.at }
    requires s_len_bound { length (view s.old).dirty < 3 }
    ensures { Becomes (wake_neighbours p.at) s.old s.new }
{
    let t = sets::load::<Touched>(s, p);
    let xs = table_pipes::inlets::load_inlets(s, p);
    outlets::each::pass_marks(s, p);
    wake_touched(s, xs, t);
    sets::store::<Touched>(s, p, InletSet::new());
}
