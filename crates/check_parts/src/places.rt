// Where a pipeline or a port may stand.
ghost use Rattle.std.specs.Prelude.{◌≡◌};
ghost use Rattle.rules.specs.Check.{place_ok};
ghost use Rattle.tables.specs.View.{view};

use tables::StateBytes;

// Whether a place is of a node of the job in an active slot, or of a leaf of the job.
pub fn place_ok(s: &StateBytes, p: usize) -> bool
    ensures { result ≡ place_ok (view s.now) p }
{
    let n = p % 24;
    n < table_job::counts::node_count(s)
        && if p < 72 {
            table_lists::active::is_active(s, p / 24)
        } else {
            table_job::node_fields::is_leaf(s, n)
        }
}
