// A cause of 14.
ghost use Rattle.std.specs.Prelude.{◌≡◌, length};
ghost use Rattle.rules.specs.Machine.{fault_if};
ghost use Rattle.tables.specs.Change.{Becomes};
ghost use Rattle.tables.specs.View.{Sized, machine_len};

use crate::counters::{fault, set_fault};
use tables::{MACHINE_LEN, StateBytes};

// A cause of 14 came up in the machine where the test holds.
fn mark_if(s: &mut StateBytes, x: bool)
    ensures becomes { Becomes (fault_if x) s.old s.new }
    ensures size { length s.new ≡ machine_len }
{
    let before = fault(s);
    set_fault(s, before || x);
}

// A cause of 14 came up where the test holds.
pub fn fault_if(s: &mut [u8], x: bool)
    requires { Sized s.old }
    ensures { Becomes (fault_if x) s.old s.new }
{
    mark_if(s.first_chunk_mut::<MACHINE_LEN>().unwrap(), x);
}
