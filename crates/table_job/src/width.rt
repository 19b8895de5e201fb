// How many columns a node has, read without its other fields.
ghost use Rattle.std.specs.Prelude.{◌≡◌};
ghost use Rattle.rules.specs.Plan.{node_of};
ghost use Rattle.tables.specs.View.{view};

use crate::node_fields::record_at;
use tables::StateBytes;

pub fn node_width(s: &StateBytes, n: usize) -> u8
    ensures { result ≡ (node_of (view s.now).job n).width }
{
    match record_at(s, n) {
        Some(a) => s[a + 1],
        None => 0,
    }
}
