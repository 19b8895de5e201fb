// The first leaf of a segment.
ghost use Rattle.std.specs.Prelude.{◌≡◌, true};
ghost use Rattle.rules.specs.Plan.{is_leaf};
ghost use Rattle.rules.specs.Check.{is_first};
ghost use Rattle.tables.specs.View.{view};
ghost use Rattle.check_job.specs.Seen.{Distinct};

use tables::StateBytes;

// Whether no leaf before leaf g names its segment.
fn none_before(s: &StateBytes, g: usize) -> bool
    requires g_value { is_leaf (view s.now).job g ≡ true }
    ensures { result ≡ is_first (view s.now) g }
{
    let segment = table_job::node_fields::node_segment(s, g);
    for l in 0..g {
        if reach::leaves::names(s, l, segment) {
            return false;
        }
    }
    true
}

// Whether a node is the first leaf of its segment. Where the leaves are distinct, each is.
pub(crate) fn is_first(s: &StateBytes, g: usize, distinct: bool) -> bool
    requires distinct { distinct ≡ true → Distinct (view s.now).job.nodes }
    ensures { result ≡ is_first (view s.now) g }
{
    table_job::node_fields::is_leaf(s, g) && (distinct || none_before(s, g))
}
