// All lists of a state.
ghost use Rattle.std.specs.Prelude.{◌≡◌, true};
ghost use Rattle.rules.specs.Check.{lists_ok};
ghost use Rattle.tables.specs.View.{view};
ghost use Rattle.check_job.specs.Seen.{Distinct};

use crate::{outputs, reads, slot_list, stacks};
use tables::StateBytes;

// kept: `distinct` goes along with its clause, as the caller knows it from check_job, whose public answer it is.
// Every list names what there is. Distinct: it is known that no two leaves name one segment.
#[tactic(auto, unfolding(rules::specs::Check::lists_ok))]
pub fn lists_ok(s: &StateBytes, distinct: bool) -> bool
    requires distinct { distinct ≡ true → Distinct (view s.now).job.nodes }
    ensures { result ≡ lists_ok (view s.now) }
{
    stacks::freed_ok(s)
        && stacks::ready_ok(s)
        && reads::reads_ok(s, distinct)
        && reads::news_ok(s)
        && stacks::dirty_ok(s)
        && outputs::outputs_ok(s)
        && slot_list::slots_ok(s)
        && slot_list::unbuilt_ok(s, distinct)
}
