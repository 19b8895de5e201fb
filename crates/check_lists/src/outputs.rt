// The outputs that are held.
ghost use Rattle.std.specs.Prelude.{◌≡◌, ◌<◌, length};
ghost use Rattle.rules.specs.Table.{get, all};
ghost use Rattle.rules.specs.Plan.{node_of, root_of};
ghost use Rattle.rules.specs.Check.{output_ok};
ghost use Rattle.tables.specs.Outputs.{no_output};
ghost use Rattle.tables.specs.View.{view};

use tables::StateBytes;

// The root's number of columns.
fn root_width(s: &StateBytes) -> usize
    ensures { result ≡ (node_of (view s.now).job (root_of (view s.now).job)).width }
{
    usize::from(table_job::nodes::load_node(s, reach::leaves::root(s)).width)
}

// An output is of a split of the job, and its batch fits the root.
fn output_ok(s: &StateBytes, k: usize) -> bool
    requires k_in_bounds { k < length (view s.now).outputs }
    ensures { result ≡ output_ok (view s.now) (get no_output (view s.now).outputs k) }
{
    let x = table_queues::outputs::output_at(s, k);
    usize::from(x.split) < table_job::counts::split_count(s)
        && check_ports::held::batch_ok(s, root_width(s), x.batch)
}

// Every output.
pub(crate) fn outputs_ok(s: &StateBytes) -> bool
    ensures { result ≡ all (output_ok (view s.now)) (view s.now).outputs }
{
    for k in 0..table_queues::outputs::output_len(s) {
        if !output_ok(s, k) {
            return false;
        }
    }
    true
}
