// The newest port that waits for its claim.
ghost use Rattle.std.specs.Prelude.{◌≡◌, ◌&&◌};
ghost use Rattle.rules.specs.Plan.{names};
ghost use Rattle.rules.specs.Machine.{share_port};
ghost use Rattle.rules.specs.Shares.{is_waiting, newest_waiting};
ghost use Rattle.tables.specs.View.{view, Sized};
ghost use Rattle.claims.specs.Claimed.{number_of};

use tables::front::machine;
use tables::{NodeIndex, PortIndex, SplitIndex, StateBytes};

// Whether a port waits for its claim.
fn waits_for_claim(s: &StateBytes, x: PortIndex) -> bool
    ensures { result ≡ is_waiting (view s.now) x.at }
{
    let v = table_ports::ports::load_port(s, x);
    v.there && table_ports::ports::is_nobody(v.reader)
}

// The same in any bytes that have a machine.
pub fn is_waiting(s: &[u8], x: PortIndex) -> bool
    requires sized { Sized s.now }
    ensures { result ≡ is_waiting (view s.now) x.at }
{
    waits_for_claim(machine(s), x)
}

// Whether node i is a leaf of the segment of leaf l whose port of split t waits.
fn waits(s: &StateBytes, l: usize, t: SplitIndex, i: NodeIndex) -> bool
    ensures { result ≡ (names (view s.now).job l i.at && is_waiting (view s.now) (share_port i.at t.at)) }
{
    reach::leaves::same_segment(s, i.at, l)
        && waits_for_claim(
            s,
            PortIndex {
                at: 72 + (16 * i.at + t.at),
            },
        )
}

// The port of the last leaf of the segment that waits for split t.
pub(crate) fn newest_waiting(s: &StateBytes, l: usize, t: SplitIndex) -> Option<PortIndex>
    ensures { number_of result ≡ newest_waiting (view s.now) l t.at }
{
    let n = table_job::counts::node_count(s);
    for i in (0..n).rev() {
        if waits(s, l, t, NodeIndex { at: i }) {
            return Some(PortIndex {
                at: 72 + (16 * i + t.at),
            });
        }
    }
    None
}
