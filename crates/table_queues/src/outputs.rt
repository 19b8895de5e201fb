// The outputs that a state holds.
ghost use Rattle.std.specs.Prelude.{◌≡◌, ◌≤◌, ◌<◌, ltb, length, drop};
ghost use Rattle.rules.specs.Table.{get};
ghost use Rattle.rules.specs.Port.{capacity};
ghost use Rattle.rules.specs.Machine.{with_outputs};
ghost use Rattle.tables.specs.Change.{Becomes};
ghost use Rattle.tables.specs.View.{view};
ghost use Rattle.tables.specs.Outputs.{no_output};
ghost use Rattle.tables.specs.Rings.{appended};
ghost use Rattle.table_queues.specs.Output.{output_of};

use crate::output_ring;
use crate::output_ring::Output;
use tables::StateBytes;

// How many outputs are held.
pub fn output_len(s: &StateBytes) -> usize
    ensures { result ≡ length (view s.now).outputs }
{
    output_ring::count(&s[373..679])
}

// The oldest output, where there is one.
pub fn first_output(s: &StateBytes) -> Output
    requires outputs_nonzero { 0 < length (view s.now).outputs }
    ensures { output_of result ≡ get no_output (view s.now).outputs 0 }
{
    output_ring::entry(&s[373..679], 0)
}

// Output k of them, from the oldest on.
pub fn output_at(s: &StateBytes, k: usize) -> Output
    requires k_in_bounds { k < length (view s.now).outputs }
    ensures result_value { output_of result ≡ get no_output (view s.now).outputs k }
    ensures width_bound { result.batch.width ≤ 4 }
{
    output_ring::entry(&s[373..679], k)
}

// Without the oldest.
pub fn pop_output(s: &mut StateBytes)
    ensures { Becomes (λ m. with_outputs (drop 1 m.outputs) m) s.old s.new }
{
    output_ring::pop(&mut s[373..679]);
}

// One more; false where there are as many as a port may hold.
pub fn push_output(s: &mut StateBytes, x: Output) -> bool
    requires width_bound { x.batch.width ≤ 4 }
    ensures value { result ≡ ltb (length (view s.old).outputs) capacity }
    ensures becomes { Becomes (λ m. with_outputs (appended capacity (output_of x) m.outputs) m) s.old s.new }
{
    output_ring::push(&mut s[373..679], x)
}
