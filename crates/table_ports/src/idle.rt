// Whether something waits in a port, be it one of a slot or shared.
ghost use Rattle.std.specs.Prelude.{◌≡◌};
ghost use Rattle.rules.specs.Table.{is_empty};
ghost use Rattle.rules.specs.Machine.{queue_at};
ghost use Rattle.tables.specs.View.{view, Sized};

use crate::queues::queue_len;
use crate::share_flags::is_full;
use tables::front::machine;
use tables::{PortIndex, SharedPortIndex, SlotPortIndex, StateBytes};

// Whether nothing waits in port x of the machine.
fn idle_in(s: &StateBytes, x: PortIndex) -> bool
    ensures { result ≡ is_empty (queue_at (view s.now) x.at) }
{
    if 72 <= x.at {
        return !is_full(s, SharedPortIndex { at: x.at });
    }
    queue_len(s, SlotPortIndex { at: x.at }) == 0
}

// Whether nothing waits in port x.
pub fn is_idle(s: &[u8], x: PortIndex) -> bool
    requires sized { Sized s.now }
    ensures { result ≡ is_empty (queue_at (view s.now) x.at) }
{
    idle_in(machine(s), x)
}
