// The stacks: freed pipeline numbers, pipelines to run, slots to look at.
ghost use Rattle.std.specs.Prelude.{◌≡◌, ◌&&◌, ltb};
ghost use Rattle.rules.specs.Table.{all};
ghost use Rattle.rules.specs.Machine.{live};
ghost use Rattle.rules.specs.Check.{is_active};
ghost use Rattle.tables.specs.View.{view};

use tables::StateBytes;

// Every freed number was made.
pub(crate) fn freed_ok(s: &StateBytes) -> bool
    ensures { result ≡ all (λ n. ltb n (view s.now).made) (view s.now).freed }
{
    let made = usize::from(table_lists::counters::made(s));
    for k in 0..table_lists::stacks::len::<table_lists::stacks::Freed>(s) {
        if made <= table_lists::stacks::at::<table_lists::stacks::Freed>(s, k) {
            return false;
        }
    }
    true
}

// Whether a pipeline lives at a place of the table.
fn lives(s: &StateBytes, p: usize) -> bool
    ensures { result ≡ (ltb p 96 && live (view s.now) p) }
{
    p < 96 && check_parts::entries::is_live(s, p)
}

// Every pipeline to run is live.
pub(crate) fn ready_ok(s: &StateBytes) -> bool
    ensures { result ≡ all (λ p. ltb p 96 && live (view s.now) p) (view s.now).ready }
{
    for k in 0..table_lists::stacks::len::<table_lists::stacks::Ready>(s) {
        if !lives(
            s,
            table_lists::stacks::at::<table_lists::stacks::Ready>(s, k),
        ) {
            return false;
        }
    }
    true
}

// Every slot to look at is active.
pub(crate) fn dirty_ok(s: &StateBytes) -> bool
    ensures { result ≡ all (is_active (view s.now)) (view s.now).dirty }
{
    for k in 0..table_lists::stacks::len::<table_lists::stacks::Dirty>(s) {
        if !table_lists::active::is_active(
            s,
            table_lists::stacks::at::<table_lists::stacks::Dirty>(s, k),
        ) {
            return false;
        }
    }
    true
}
