// Slots and reads, when nothing is runnable.
ghost use Rattle.std.specs.Prelude.{◌≡◌, drop};
ghost use Rattle.rules.specs.Table.{any, all, find};
ghost use Rattle.rules.specs.Scan.{is_free, slots_of, in_flight, at_rest};
ghost use Rattle.tables.specs.View.{view, machine_len};
ghost use Rattle.numbers.specs.Opt.{option_of};
ghost use Rattle.scheduler.specs.Answers.{turn_of, Zeroes};

use jobs::Refusal;
use tables::StateBytes;
use turn::Turn;

// The first slot of the job without a split, if there is one.
pub(crate) fn first_free(s: &StateBytes) -> Option<usize>
    ensures { option_of result ≡ find (is_free (view s.now)) (slots_of (view s.now)) }
{
    for k in 0..usize::from(table_job::counts::slots(s)) {
        if !table_lists::active::is_active(s, k) {
            return Some(k);
        }
    }
    None
}

// Whether no slot of the job has a split.
fn all_free(s: &StateBytes) -> bool
    ensures { result ≡ all (is_free (view s.now)) (slots_of (view s.now)) }
{
    for k in 0..usize::from(table_job::counts::slots(s)) {
        if table_lists::active::is_active(s, k) {
            return false;
        }
    }
    true
}

// Whether a read was not delivered yet.
fn any_in_flight(s: &StateBytes) -> bool
    ensures { result ≡ any in_flight (view s.now).reads }
{
    for i in 0..table_queues::reads::read_count(s) {
        if !table_queues::reads::load_read(s, i).delivered {
            return true;
        }
    }
    false
}

// Done if no split is live, waiting if a read is in flight; else the state is stuck.
pub(crate) fn at_rest(s: &mut StateBytes) -> Turn
    ensures s_after { turn_of result (view s.new) ≡ at_rest (view s.old) }
    ensures zeroes { Zeroes result s.new }
    ensures s_unchanged { drop machine_len s.new ≡ drop machine_len s.old }
{
    if all_free(s) {
        return Turn::Done;
    }
    if any_in_flight(s) {
        return Turn::Waiting;
    }
    table_blank::zeros::clear(s);
    Turn::Refused(Refusal::Stuck)
}
