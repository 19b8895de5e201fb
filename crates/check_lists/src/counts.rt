// How many of everything there may be.
ghost use Rattle.std.specs.Prelude.{◌≡◌};
ghost use Rattle.rules.specs.Check.{counts_ok};
ghost use Rattle.tables.specs.View.{view};
ghost use Rattle.check_lists.specs.Counts.{number_counts, read_counts};

use queue::Queue;
use tables::StateBytes;

// The next split, the pipeline numbers, the freed ones and the pipelines to run.
fn numbers_ok(s: &StateBytes) -> bool
    ensures { result ≡ number_counts (view s.now) }
{
    usize::from(table_lists::counters::next(s)) <= table_job::counts::split_count(s)
        && table_lists::counters::made(s) <= 96
        && table_lists::stacks::len::<table_lists::stacks::Freed>(s) <= 96
        && table_lists::stacks::len::<table_lists::stacks::Ready>(s) <= 96
}

// Those, the reads, and the reads that are not told yet.
fn reads_short(s: &StateBytes) -> bool
    ensures { result ≡ read_counts (view s.now) }
{
    numbers_ok(s)
        && table_queues::reads::read_count(s) <= 24
        && table_queues::news::new_len(s) <= 24
}

// Every count is in its range, and no cause of 14 came up.
#[tactic(auto, unfolding(rules::specs::Check::counts_ok))]
pub fn counts_ok(s: &StateBytes) -> bool
    ensures { result ≡ counts_ok (view s.now) }
{
    reads_short(s)
        && table_lists::stacks::len::<table_lists::stacks::Dirty>(s)
            <= usize::from(table_job::counts::slots(s))
        && table_queues::outputs::output_len(s) <= Queue::DEFAULT_CAPACITY
        && !table_lists::counters::fault(s)
}
