// A segment becomes a pipeline.
ghost use Rattle.std.specs.Prelude.{◌≡◌, [], ◌∷◌, ◌%◌};
ghost use Rattle.rules.specs.Job.{segment};
ghost use Rattle.rules.specs.Operators.{concat};
ghost use Rattle.rules.specs.Pipelines.{lay};
ghost use Rattle.rules.specs.Lower.{stage_for, lower_leaf, lower_kind};
ghost use Rattle.numbers.specs.Opt.{option_of};
ghost use Rattle.claims.specs.Claimed.{number_of};
ghost use Rattle.tables.specs.Change.{Becomes};
ghost use Rattle.tables.specs.View.{view};

use concat_source::ConcatSource;
use kept::runs;
use table_pipes::{Inlets, Source};
use tables::{NodeIndex, PipeIndex, PortIndex, SlotIndex, SplitIndex, StateBytes};

// A stage that cuts the runs of node n in split t, unless the whole segment is kept.
fn stage_for(s: &StateBytes, t: usize, n: usize) -> Option<u8>
    ensures { option_of result ≡ stage_for (view s.now) n t }
{
    let x = table_job::nodes::load_node(s, n);
    let k = reach::cut::kept_at(s, n, t);
    if runs::is_whole(x.rows, k) {
        return None;
    }
    Some(0)
}

// A claimed port feeds a concat of one inlet.
fn lay_claimed(s: &mut StateBytes, p: PipeIndex, t: usize, n: usize, x: PortIndex)
    ensures { Becomes (λ m. lay p.at (concat 0) (stage_for m n t) (x.at ∷ []) m) s.old s.new }
{
    let cut = stage_for(s, t, n);
    let source = Source::Concat(ConcatSource { current: 0 });
    let one = Inlets {
        len: 1,
        ports: [x.at as u16; 23],
    };
    pipelines::laying::lay(s, p, source, cut, one);
}

// A source of its own, or the claimed port.
fn lay_leaf(s: &mut StateBytes, p: PipeIndex, t: usize, n: usize, c: Option<PortIndex>)
    requires p_value { p.at % 24 ≡ n }
    ensures { Becomes (λ m. lower_leaf p.at t (number_of c, m)) s.old s.new }
{
    match c {
        None => claims::shared_source::lay_source(s, p),
        Some(x) => lay_claimed(s, p, t, n, x),
    }
}

// Leaf n, of split t in slot k.
pub(crate) fn lower_leaf(s: &mut StateBytes, k: SlotIndex, t: SplitIndex, n: NodeIndex)
    ensures { Becomes (lower_kind segment k.at t.at n.at) s.old s.new }
{
    let p = PipeIndex {
        at: 24 * k.at + n.at,
    };
    let c = claims::claiming::claim(s, p, n, t);
    lay_leaf(s, p, t.at, n.at, c);
}
