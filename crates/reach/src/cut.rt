// The runs that a node keeps of a split.
ghost use Rattle.std.specs.Prelude.{◌≡◌, ◌≤◌, length};
ghost use Rattle.rules.specs.Plan as plan;
ghost use Rattle.kept.specs.Kept as held;
ghost use Rattle.tables.specs.View.{view, Sized};

use crate::meeting::meets_run;
use kept::{Kept, runs};
use tables::StateBytes;
use tables::front::machine;

// The runs of split t within node n of the machine, in the node's rows.
pub(crate) fn runs_at(s: &StateBytes, n: usize, t: usize) -> Kept
    ensures result_value { held.runs_of result ≡ plan.kept (view s.now).job n t }
    ensures sized { held.Sized result }
{
    let x = table_job::nodes::load_node(s, n);
    let y = table_job::split_table::load_split(s, t);
    runs::kept_in(x.at, x.rows, y)
}

// The runs of split t within node n, in the node's rows.
pub fn kept_at(s: &[u8], n: usize, t: usize) -> Kept
    requires { Sized s.now }
    ensures result_value { held.runs_of result ≡ plan.kept (view s.now).job n t }
    ensures sized { held.Sized result }
{
    runs_at(machine(s), n, t)
}

// How many there are.
pub fn kept_count(s: &StateBytes, n: usize, t: usize) -> usize
    ensures value { result ≡ length (plan.kept (view s.now).job n t) }
    ensures upper_bound { result ≤ 16 }
{
    let all = table_job::split_fields::run_count(s, t);
    let base = table_job::split_fields::split_start(s, t);
    let at = table_job::node_fields::first_row(s, n);
    let rows = table_job::node_fields::node_rows(s, n);
    let mut count = 0;
    for i in 0..all {
        let x = table_job::split_fields::run_at(s, t, i);
        count += usize::from(meets_run(base, at, rows, x));
    }
    count
}

// Whether split t keeps rows of node n.
// kept: apart from `kept_count`, since it stops at the first run.
pub fn keeps(s: &StateBytes, n: usize, t: usize) -> bool
    ensures { result ≡ plan.keeps (view s.now).job n t }
{
    let all = table_job::split_fields::run_count(s, t);
    let base = table_job::split_fields::split_start(s, t);
    let at = table_job::node_fields::first_row(s, n);
    let rows = table_job::node_fields::node_rows(s, n);
    for i in 0..all {
        if meets_run(base, at, rows, table_job::split_fields::run_at(s, t, i)) {
            return true;
        }
    }
    false
}
