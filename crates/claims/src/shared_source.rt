// The source of a whole segment, with a port for each claimant.
ghost use Rattle.std.specs.Prelude.{◌≡◌, false, [], ◌+◌, drop};
ghost use Rattle.std.proofs.Math.Option.{none};
ghost use Rattle.rules.specs.Operators.{segment};
ghost use Rattle.rules.specs.Pipelines.{lay};
ghost use Rattle.rules.specs.Shares.{claimants, build};
ghost use Rattle.tables.specs.Change.{Becomes};
ghost use Rattle.tables.specs.View.{view, machine_len};
ghost use Rattle.claims.specs.Claimed.{number_of};
ghost use Rattle.claims.specs.Built.{built};

use crate::{claimants, ports, share_ports};
use segment_source::SegmentSource;
use table_pipes::{Inlets, Source};
use tables::{NodeIndex, PipeIndex, PortIndex, SplitIndex, StateBytes};

// A segment source without inlets at a place.
pub fn lay_source(s: &mut StateBytes, p: PipeIndex)
    ensures { Becomes (lay p.at (segment false false 0) none []) s.old s.new }
{
    let source = Source::Segment(SegmentSource {
        asked: false,
        bytes: false,
        emitted: 0,
    });
    let none = Inlets {
        len: 0,
        ports: [0; 23],
    };
    pipelines::laying::lay(s, p, source, None, none);
}

// The ports, then the source of the segment that leaf l claimed first.
fn build_source(s: &mut StateBytes, l: NodeIndex)
    ensures { Becomes (built l.at) s.old s.new }
{
    share_ports::make_ports(s, l.at);
    let p = PipeIndex { at: 72 + l.at };
    lay_source(s, p);
    pipelines::numbering::add(s, p);
}

// The first claim of a segment: with one claimant only, nothing is built.
pub(crate) fn build(
    s: &mut StateBytes,
    p: PipeIndex,
    l: NodeIndex,
    t: SplitIndex,
) -> Option<PortIndex>
    ensures s_value { build p.at l.at t.at (claimants (view s.old) l.at) (view s.old) ≡ (number_of result, view s.new) }
    ensures s_unchanged { drop machine_len s.new ≡ drop machine_len s.old }
{
    let n = claimants::claimant_count(s, l.at);
    if n <= 1 {
        return None;
    }
    let x = claimants::first_for(s, l.at, t);
    build_source(s, l);
    ports::claim_port(s, p, x)
}
