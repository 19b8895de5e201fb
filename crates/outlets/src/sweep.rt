// All shared ports that a pipeline writes, by rising number.
ghost use Rattle.std.specs.Prelude.{◌+◌, ◌*◌};
ghost use Rattle.tables.specs.Change.{Becomes};
ghost use Rattle.tables.specs.View.{view};
ghost use Rattle.outlets.specs.Act.{turn, sweep, Able};

use crate::act::Act;
use crate::{act, outlet};
use tables::{NodeIndex, SharedPortIndex, StateBytes};

// Port x, where the pipeline at p writes it.
fn act_if(s: &mut StateBytes, a: Act, p: usize, x: SharedPortIndex)
    requires able { Able a (view s.old) }
    ensures { Becomes (turn a p x.at) s.old s.new }
{
    if !outlet::is_outlet(s, p, x) {
        return;
    }
    act::apply(s, a, x);
}

// The 16 ports of leaf l: at once where the leaf is not of the pipeline's segment.
fn sweep_leaf(s: &mut StateBytes, a: Act, p: usize, l: NodeIndex)
    requires able { Able a (view s.old) }
    ensures { Becomes (sweep a p 16 (72 + 16 * l.at)) s.old s.new }
{
    if !reach::leaves::same_segment(s, l.at, p % 24) {
        return;
    }
    for x in 72 + 16 * l.at..72 + 16 * l.at + 16 {
        act_if(s, a, p, SharedPortIndex { at: x });
    }
}

// All of them.
pub(crate) fn sweep(s: &mut StateBytes, a: Act, p: usize)
    requires able { Able a (view s.old) }
    ensures { Becomes (sweep a p 384 72) s.old s.new }
{
    for l in 0..24 {
        sweep_leaf(s, a, p, NodeIndex { at: l });
    }
}
