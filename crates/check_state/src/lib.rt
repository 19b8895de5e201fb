// Checks 1 and 12 of a lent state: too short, out of order, or in order. The rule `check` of its view, the parts asked in the sequence in which each
// may rely on the ones before, and at last of the numbers behind the machine; every step and delivery begins here, because anybody may have changed
// the bytes since the last call. docs/STATE.md has check 12 field by field.
#![tactic(auto)]

mod labels; // labels.rt: the numbers of the nodes, behind the machine

ghost use Rattle.std.specs.Prelude.{◌≡◌, IfOk};
ghost use Rattle.rules.specs.Check.{check};
ghost use Rattle.tables.specs.View.{view};
ghost use Rattle.check_job.specs.Walk.{RowsFit};
ghost use Rattle.check_state.specs.Checked.{checked, number_or_0};

use jobs::Refusal;
use tables::{StateBytes, front};

// Whether a state passes check 12 as far as its machine goes. The job's rows fit in any case.
#[tactic(auto, unfolding(rules::specs::Check::check))]
fn machine_ok(s: &StateBytes) -> bool
    ensures value { result ≡ check (view s.now) }
    ensures rows_fit { RowsFit (view s.now).job.nodes }
{
    let Ok(distinct) = check_job::job::job_ok(s) else {
        return false;
    };
    check_lists::counts::counts_ok(s)
        && check_lists::lists::lists_ok(s, distinct)
        && check_pipes::pipes::pipes_ok(s)
        && check_ports::ports::ports_ok(s)
        && check_ports::queues::queues_ok(s)
}

// Whether a state passes, or why it is refused: it is too short, or out of order.
pub fn check(s: &[u8]) -> Result<(), Refusal>
    ensures value { number_or_0 result ≡ checked s.now }
    ensures rows_fit { IfOk result (λ u. RowsFit (view s.now).job.nodes) }
{
    if s.len() < tables::STATE_LEN {
        return Err(Refusal::StateTooShort);
    }
    if machine_ok(front::machine(s)) && labels::labels_ok(s) {
        Ok(())
    } else {
        Err(Refusal::OutOfOrder)
    }
}
