// The slots, and the shared sources that are still to be made.
ghost use Rattle.std.specs.Prelude.{◌≡◌, true, false, ◌&&◌, ◌||◌, not, ◌<◌, ltb};
ghost use Rattle.rules.specs.Table.{get, all, up_from};
ghost use Rattle.rules.specs.Plan.{root_of};
ghost use Rattle.rules.specs.Machine.{place, port_at};
ghost use Rattle.rules.specs.Check.{split_ok, slot_ok, is_first};
ghost use Rattle.numbers.specs.Opt.{option_of};
ghost use Rattle.tables.specs.View.{view};
ghost use Rattle.check_job.specs.Seen.{Distinct};

use crate::first;
use tables::{NodeIndex, SlotIndex, StateBytes};

// A slot's split is one of the job's.
fn split_ok(s: &StateBytes, x: Option<u8>) -> bool
    ensures { result ≡ split_ok (view s.now) (option_of x) }
{
    match x {
        None => true,
        Some(i) => usize::from(i) < table_job::counts::split_count(s),
    }
}

// A slot is one of the job's, and the root's port in it is in use.
fn port_ok(s: &StateBytes, k: SlotIndex) -> bool
    ensures { result ≡ (ltb k.at (view s.now).job.slots
        && (port_at (view s.now) (place k.at (root_of (view s.now).job))).there) }
{
    k.at < usize::from(table_job::counts::slots(s))
        && check_parts::entries::port_of(s, 24 * k.at + reach::leaves::root(s)).there
}

// A slot that is active is one of the job's, with a split of the job and the root's port.
fn slot_ok(s: &StateBytes, k: SlotIndex) -> bool
    ensures { result ≡ slot_ok (view s.now) k.at }
{
    split_ok(s, table_lists::active::load_active(s, k))
        && (!table_lists::active::is_active(s, k.at) || port_ok(s, k))
}

// Every slot.
pub(crate) fn slots_ok(s: &StateBytes) -> bool
    ensures { result ≡ all (slot_ok (view s.now)) (up_from 0 3) }
{
    for k in 0..3 {
        if !slot_ok(s, SlotIndex { at: k }) {
            return false;
        }
    }
    true
}

// A source that is still to be made is named by the first leaf of its segment.
fn unbuilt_at_ok(s: &StateBytes, g: NodeIndex, distinct: bool) -> bool
    requires distinct { distinct ≡ true → Distinct (view s.now).job.nodes }
    ensures { result ≡ (not (get false (view s.now).unbuilt g.at) || is_first (view s.now) g.at) }
{
    !table_lists::flags::unbuilt(s, g) || first::is_first(s, g.at, distinct)
}

// Every source that is still to be made.
pub(crate) fn unbuilt_ok(s: &StateBytes, distinct: bool) -> bool
    requires distinct { distinct ≡ true → Distinct (view s.now).job.nodes }
    ensures { result ≡ all (λ g. not (get false (view s.now).unbuilt g) || is_first (view s.now) g) (up_from 0 24) }
{
    if table_lists::flags::all_built(s) {
        return true;
    }
    for g in 0..24 {
        if !unbuilt_at_ok(s, NodeIndex { at: g }, distinct) {
            return false;
        }
    }
    true
}
