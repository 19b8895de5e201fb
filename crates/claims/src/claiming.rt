// A claim.
ghost use Rattle.std.specs.Prelude.{◌≡◌, ◌<◌, drop};
ghost use Rattle.rules.specs.Shares.{claim};
ghost use Rattle.tables.specs.View.{view, machine_len};
ghost use Rattle.claims.specs.Claimed.{number_of};
ghost use Rattle.claims.specs.Built.{claim_new};

use crate::{ports, shared_source, waiting};
use tables::{NodeIndex, PipeIndex, PortIndex, SplitIndex, StateBytes};

// No port waits for the claim: the source is made if it is still to be made.
fn claim_new(s: &mut StateBytes, p: PipeIndex, l: NodeIndex, t: SplitIndex) -> Option<PortIndex>
    ensures s_value { claim_new p.at l.at t.at (view s.old) ≡ (number_of result, view s.new) }
    ensures s_unchanged { drop machine_len s.new ≡ drop machine_len s.old }
{
    let g = NodeIndex {
        at: reach::leaves::first_leaf(s, l),
    };
    if !table_lists::flags::unbuilt(s, g) {
        return None;
    }
    table_lists::flags::set_unbuilt(s, g, false);
    shared_source::build(s, p, l, t)
}

// The pipeline at p, of leaf l and split t, claims a port of its segment; none: it has a source of its own.
pub fn claim(s: &mut StateBytes, p: PipeIndex, l: NodeIndex, t: SplitIndex) -> Option<PortIndex>
    ensures s_value { claim p.at l.at t.at (view s.old) ≡ (number_of result, view s.new) }
    ensures s_unchanged { drop machine_len s.new ≡ drop machine_len s.old }
{
    match waiting::newest_waiting(s, l.at, t) {
        Some(x) => ports::claim_port(s, p, Some(x)),
        None => claim_new(s, p, l, t),
    }
}
