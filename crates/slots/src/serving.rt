// A dirty slot's turn.
ghost use Rattle.std.specs.Prelude.{◌≡◌, []};
ghost use Rattle.std.proofs.Math.Option.{some};
ghost use Rattle.rules.specs.Plan.{root_of};
ghost use Rattle.rules.specs.Machine.{place};
ghost use Rattle.rules.specs.Scan.{serve, advance};
ghost use Rattle.order.specs.Inv.{split_in};
ghost use Rattle.order.specs.Ranged.{Ranged};
ghost use Rattle.tables.specs.Change.{Becomes};
ghost use Rattle.tables.specs.View.{view};

use crate::outputs;
use tables::{PortIndex, SlotIndex, SlotPortIndex, SplitIndex, StateBytes};

// The split of a slot puts out what its root wrote, and leaves the slot once the root has ended.
fn serve(s: &mut StateBytes, k: SlotIndex, t: u8)
    requires ranged { Ranged (view s.old) }
    requires s_value { (view s.old).outputs ≡ [] }
    requires k_value { split_in (view s.old).active k.at ≡ some t }
    ensures { Becomes (λ m. serve k.at t (place k.at (root_of m.job)) m) s.old s.new }
{
    let x = SlotPortIndex {
        at: 24 * k.at + reach::leaves::root(s),
    };
    let v = table_ports::ports::load_port(s, PortIndex { at: x.at });
    outputs::put_out(s, x, t);
    if v.closed {
        leaving::ends::leave(s, k, SplitIndex { at: usize::from(t) });
    }
}

// The turn of a slot, which may have lost its split.
pub fn advance(s: &mut StateBytes, k: SlotIndex)
    requires ranged { Ranged (view s.old) }
    requires s_value { (view s.old).outputs ≡ [] }
    ensures { Becomes (advance k.at) s.old s.new }
{
    if let Some(t) = table_lists::active::load_active(s, k) {
        serve(s, k, t);
    }
}
