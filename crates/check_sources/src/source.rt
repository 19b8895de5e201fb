// The source fits the node, its position its runs or inlets, and its inlets the tree.
ghost use Rattle.std.specs.Prelude.{◌≡◌, ◌%◌, leb, length};
ghost use Rattle.rules.specs.Machine.{source_at, pieces_at};
ghost use Rattle.rules.specs.Operators as rule;
ghost use Rattle.rules.specs.Plan.{node_of};
ghost use Rattle.rules.specs.Check.{source_ok};
ghost use Rattle.jobs.specs.Job.{kind_of};
ghost use Rattle.tables.specs.View.{view};
ghost use Rattle.check_sources.specs.Source.{fed_by};

use crate::{fed, pack, runs};
use jobs::{Kind, nodes};
use table_pipes::Source;
use tables::{PipeIndex, StateBytes};

// Whether no more runs were emitted than there are.
fn emitted_ok(s: &StateBytes, p: PipeIndex, emitted: usize) -> bool
    ensures { result ≡ leb emitted (length (pieces_at (view s.now) p.at)) }
{
    emitted == 0 || emitted <= runs::run_count(s, p)
}

// A segment source is of a segment, without inlets, and within its runs.
#[tactic(auto, using(crate::specs::Source::empty_is))]
fn segment_ok(s: &StateBytes, p: PipeIndex, k: Kind, asked: bool, bytes: bool, emitted: u8) -> bool
    ensures { result ≡ source_ok (view s.now) p.at (kind_of k) (rule.segment asked bytes emitted) }
{
    nodes::is_segment(k)
        && table_pipes::inlets::inlet_count(s, p) == 0
        && emitted_ok(s, p, usize::from(emitted))
}

// Whether what feeds a concat source fits the kind of its node.
fn fed_by(s: &StateBytes, p: PipeIndex, k: Kind) -> bool
    ensures { result ≡ fed_by (view s.now) p.at (kind_of k) }
{
    match k {
        Kind::Segment => fed::fed_shared(s, p),
        Kind::Concat => fed::fed_by_children(s, p),
        Kind::Pack => false,
    }
}

// A concat source is in a slot, within its inlets, and fed as its node is.
fn concat_ok(s: &StateBytes, p: PipeIndex, k: Kind, current: u8) -> bool
    ensures { result ≡ source_ok (view s.now) p.at (kind_of k) (rule.concat current) }
{
    usize::from(current) <= table_pipes::inlets::inlet_count(s, p) && p.at < 72 && fed_by(s, p, k)
}

// A pack source is of a pack in a slot, fed by its children.
fn pack_fits(s: &StateBytes, p: PipeIndex, k: Kind) -> bool
    ensures { result ≡ source_ok (view s.now) p.at (kind_of k) rule.pack }
{
    nodes::is_pack(k) && p.at < 72 && fed::fed_by_children(s, p) && pack::waits_as_seen(s, p)
}

// Whether the source at a place fits.
pub fn source_ok(s: &StateBytes, p: PipeIndex) -> bool
    ensures { result ≡ source_ok (view s.now) p.at (node_of (view s.now).job (p.at % 24)).kind (source_at (view s.now) p.at) }
{
    let k = table_job::nodes::load_node(s, p.at % 24).kind;
    match table_pipes::source_table::load_source(s, p) {
        Source::Segment(y) => segment_ok(s, p, k, y.asked, y.bytes, y.emitted),
        Source::Concat(y) => concat_ok(s, p, k, y.current),
        Source::Pack => pack_fits(s, p, k),
    }
}
