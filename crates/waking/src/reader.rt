// A change wakes a reader only if it is blocked on that inlet.
ghost use Rattle.std.specs.Prelude.{◌≡◌, true, [], length};
ghost use Rattle.rules.specs.Table.{get};
ghost use Rattle.rules.specs.InletSet.{insert};
ghost use Rattle.rules.specs.Machine.{live, set_changed};
ghost use Rattle.rules.specs.Wake.{wake_reader};
ghost use Rattle.inlet_set.specs.Insert.{accepts};
ghost use Rattle.tables.specs.Change.{Becomes};
ghost use Rattle.tables.specs.View.{view, Sized, machine_len};

use crate::ready;
use inlet_set::lent;
use table_sets::sets::{self, Changed};
use tables::{MACHINE_LEN, PipeIndex, StateBytes};

// Inlet i of the pipeline at a place changed.
fn note_change(s: &mut StateBytes, p: PipeIndex, i: u8)
    requires p_value { accepts i (get [] (view s.old).changed p.at) ≡ true }
    ensures { Becomes (λ m. set_changed p.at (insert i (get [] m.changed p.at)) m) s.old s.new }
{
    let mut set = sets::load::<Changed>(s, p);
    lent::insert(&mut set, i);
    sets::store::<Changed>(s, p, set);
}

// A pipeline that lives is told that its inlet i changed, and becomes runnable if it is blocked on it.
pub(crate) fn tell_reader(s: &mut StateBytes, p: usize, i: u8)
    requires p_value { live (view s.old) p ≡ true → accepts i (get [] (view s.old).changed p) ≡ true }
    ensures size { length s.new ≡ machine_len }
    ensures becomes { Becomes (wake_reader p i) s.old s.new }
{
    if 96 <= p {
        return;
    }
    let p = PipeIndex { at: p };
    let v = table_pipes::pipes::load_pipe(s, p);
    if !v.live {
        return;
    }
    note_change(s, p, i);
    if v.state.is_on(i) {
        ready::make_runnable(s, p);
    }
}

// The same in any bytes that have a machine.
pub fn wake_reader(s: &mut [u8], p: usize, i: u8)
    requires sized { Sized s.old }
    requires p_value { live (view s.old) p ≡ true → accepts i (get [] (view s.old).changed p) ≡ true }
    ensures { Becomes (wake_reader p i) s.old s.new }
{
    tell_reader(s.first_chunk_mut::<MACHINE_LEN>().unwrap(), p, i);
}
