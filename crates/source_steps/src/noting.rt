// What a pack notes of its inlets.
ghost use Rattle.std.specs.Prelude.{[], ◌<◌, length};
ghost use Rattle.rules.specs.Table.{get, put};
ghost use Rattle.rules.specs.Port.{waiting};
ghost use Rattle.rules.specs.Operators.{noted};
ghost use Rattle.rules.specs.Machine.{inlets_at, set_waits, set_seen};
ghost use Rattle.rules.specs.Drive.{observe, observe_all};
ghost use Rattle.queue.specs.Seen.{seen_of};
ghost use Rattle.tables.specs.Change.{Becomes};
ghost use Rattle.tables.specs.View.{view};
ghost use Rattle.source_steps.specs.Noting.{Packing};

use crate::{inlets, touching};
use inlet_set::lent;
use queue::Seen;
use table_sets::packs;
use table_sets::sets::{self, Changed};
use tables::{PipeIndex, StateBytes};

// What an inlet showed is noted.
fn note(s: &mut StateBytes, p: PipeIndex, i: usize, seen: Seen)
    requires packing { Packing p.at (view s.old) }
    requires i_in_bounds { i < length (inlets_at (view s.old) p.at) }
    ensures { Becomes (λ m. set_seen p.at (put waiting (get [] m.seen p.at) i (seen_of seen))
        (set_waits p.at (noted (seen_of seen) i (get [] m.waits p.at)) m)) s.old s.new }
{
    let pack = packs::load_pack(s, p);
    packs::store_pack(s, p, pack.observe(i as u8, seen).unwrap_or(pack));
}

// A pack looks at an inlet.
pub(crate) fn observe(s: &mut StateBytes, p: PipeIndex, i: usize)
    requires packing { Packing p.at (view s.old) }
    requires i_in_bounds { i < length (inlets_at (view s.old) p.at) }
    ensures { Becomes (observe p.at i) s.old s.new }
{
    let seen = inlets::shows(s, p, i);
    note(s, p, i, seen);
    touching::touch(s, p, i);
}

// A pack looks at the inlets that changed, the newest first: their set is lent, and the newest taken from it.
pub(crate) fn observe_all(s: &mut StateBytes, p: PipeIndex)
    requires packing { Packing p.at (view s.old) }
    ensures { Becomes (λ m. observe_all p.at (get [] m.changed p.at) m) s.old s.new }
{
    let mut set = sets::load::<Changed>(s, p);
    while let Some(i) = lent::pop(&mut set) {
        observe(s, p, usize::from(i));
    }
}
