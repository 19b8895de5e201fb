// The two halves of a split's end.
ghost use Rattle.std.specs.Prelude.{◌≡◌, length};
ghost use Rattle.rules.specs.Scan.{end_split, empty_slot, leave};
ghost use Rattle.order.specs.Ranged.{Ranged};
ghost use Rattle.tables.specs.Change.{Becomes};
ghost use Rattle.tables.specs.View.{view, Sized, machine_len};

use crate::{ports, rising};
use tables::{MACHINE_LEN, SlotIndex, SplitIndex, StateBytes};

// Nothing stands in the slot any more, and it has no split.
fn empty_slot(s: &mut StateBytes, k: SlotIndex)
    requires ranged { Ranged (view s.old) }
    ensures { Becomes (empty_slot k.at) s.old s.new }
{
    rising::retire_rising(s, k.at);
    ports::free_places(s, k);
    table_lists::active::store_active(s, k, None);
}

// The split is finished: its shared ports go, then the shared sources that nobody reads.
pub fn end_split(s: &mut StateBytes, t: SplitIndex)
    requires ranged { Ranged (view s.old) }
    ensures { Becomes (end_split t.at) s.old s.new }
{
    table_lists::flags::set_finished(s, t, true);
    ports::free_shares(s, t);
    rising::retire_rising(s, 3);
}

// Split t leaves slot k.
fn leave_slot(s: &mut StateBytes, k: SlotIndex, t: SplitIndex)
    requires ranged { Ranged (view s.old) }
    ensures size { length s.new ≡ machine_len }
    ensures becomes { Becomes (leave k.at t.at) s.old s.new }
{
    empty_slot(s, k);
    end_split(s, t);
}

// The same in any bytes that have a machine.
pub fn leave(s: &mut [u8], k: SlotIndex, t: SplitIndex)
    requires sized { Sized s.old }
    requires ranged { Ranged (view s.old) }
    ensures { Becomes (leave k.at t.at) s.old s.new }
{
    leave_slot(s.first_chunk_mut::<MACHINE_LEN>().unwrap(), k, t);
}
