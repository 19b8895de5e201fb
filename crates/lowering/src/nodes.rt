// A node becomes a pipeline.
ghost use Rattle.std.specs.Prelude.{◌≡◌, true, ◌≤◌, length};
ghost use Rattle.rules.specs.Plan.{node_of, kept_kids};
ghost use Rattle.rules.specs.Pipelines.{is_pack_source};
ghost use Rattle.rules.specs.Lower.{lower_join, lower_kind};
ghost use Rattle.laws.specs.JobOk.{JobOk};
ghost use Rattle.jobs.specs.Job.{kind_of};
ghost use Rattle.table_pipes.specs.Source.{source_of};
ghost use Rattle.tables.specs.Change.{Becomes};
ghost use Rattle.tables.specs.View.{view};

use crate::{joins, kids, leaves};
use concat_source::ConcatSource;
use jobs::Kind;
use table_pipes::Source;
use tables::{NodeIndex, PipeIndex, SlotIndex, SplitIndex, StateBytes};

// An inner node joins its children that keep rows; a pack has at most 4.
fn lower_join(s: &mut StateBytes, k: SlotIndex, t: usize, n: NodeIndex, source: Source)
    requires job_ok { JobOk (view s.old).job }
    requires t_len_bound { is_pack_source (source_of source) ≡ true → length (kept_kids (view s.old).job n.at t) ≤ 4 }
    ensures { Becomes (lower_join (source_of source) k.at t n.at) s.old s.new }
{
    let p = PipeIndex {
        at: 24 * k.at + n.at,
    };
    let xs = kids::kid_ports(s, k, t, n);
    joins::join_ports(s, p, xs);
    pipelines::laying::lay(s, p, source, None, xs);
}

// Node n, which is of this kind, of split t in slot k.
pub(crate) fn lower_kind(s: &mut StateBytes, k: SlotIndex, t: SplitIndex, n: NodeIndex, kind: Kind)
    requires job_ok { JobOk (view s.old).job }
    requires kind_value { kind_of kind ≡ (node_of (view s.old).job n.at).kind }
    ensures { Becomes (lower_kind (kind_of kind) k.at t.at n.at) s.old s.new }
{
    match kind {
        Kind::Segment => leaves::lower_leaf(s, k, t, n),
        Kind::Concat => lower_join(s, k, t.at, n, Source::Concat(ConcatSource { current: 0 })),
        Kind::Pack => lower_join(s, k, t.at, n, Source::Pack),
    }
}
