// The whole job.
ghost use Rattle.std.specs.Prelude.{◌≡◌, true, is_ok};
ghost use Rattle.rules.specs.Check.{job_ok};
ghost use Rattle.stored.specs.Walk as rule;
ghost use Rattle.stored.specs.Fits.{counts_fit};
ghost use Rattle.numbers.specs.Opt.{either_of};
ghost use Rattle.check_job.specs.Walk.{RowsFit};
ghost use Rattle.tables.specs.View.{view};
ghost use Rattle.check_job.specs.Seen.{Distinct};
ghost use Rattle.check_job.specs.Stack.{stack_of};

use crate::stack::Stack;
use crate::{split_ranges, walk};
use jobs::NONE;
use tables::StateBytes;

// Whether there are as many slots, nodes and splits as there may be. Nodes and splits past their tables are not read.
fn counts_fit(s: &StateBytes) -> bool
    ensures { result ≡ counts_fit (view s.now).job }
{
    let k = table_job::counts::slots(s);
    let n = table_job::counts::node_count(s);
    let m = table_job::counts::split_count(s);
    k != 0 && k <= 3 && n != 0 && m <= 16
}

// Whether one node is left on the stack, a parentless one that stands at row 0.
fn ends(s: &StateBytes, w: Stack) -> bool
    ensures { result ≡ rule.ends (view s.now).job.nodes (stack_of w) }
{
    let Some(top) = w.top else {
        return false;
    };
    if top != 1 {
        return false;
    }
    let y = table_job::nodes::load_node(s, usize::from(w.free[0]));
    y.parent == NONE && y.at == 0
}

// Whether the stored job is one that opening leaves, Ok, or not, Err; in both, whether surely no two leaves name one segment. Four bytes hold a node's
// number of rows.
pub fn job_ok(s: &StateBytes) -> Result<bool, bool>
    ensures ok_value { is_ok result ≡ job_ok (view s.now).job }
    ensures rows_fit { RowsFit (view s.now).job.nodes }
    ensures distinct { either_of result ≡ true → Distinct (view s.now).job.nodes }
{
    let w = walk::walk(s);
    if counts_fit(s) && ends(s, w) && split_ranges::splits_fit(s) {
        Ok(w.distinct)
    } else {
        Err(w.distinct)
    }
}
