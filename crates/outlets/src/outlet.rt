// Which shared ports a pipeline writes: those of its segment that are there.
ghost use Rattle.std.specs.Prelude.{◌≡◌, ◌<◌};
ghost use Rattle.tables.specs.View.{view};
ghost use Rattle.outlets.specs.Outlet.{is_outlet};

use tables::{PortIndex, SharedPortIndex, StateBytes};

// The pipeline at p writes the shared port x.
#[tactic(auto, unfolding(crate::specs::Outlet::is_outlet, crate::specs::Outlet::is_share_of))]
pub(crate) fn is_outlet(s: &StateBytes, p: usize, x: SharedPortIndex) -> bool
    ensures { result ≡ is_outlet (view s.now) p x.at }
{
    table_ports::ports::load_port(s, PortIndex { at: x.at }).there
        && (x.at - 72) % 16 < table_job::counts::split_count(s)
        && reach::leaves::same_segment(s, (x.at - 72) / 16, p % 24)
}
