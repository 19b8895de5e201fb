// The machine at the front of lent bytes.
ghost use Rattle.std.specs.Prelude.{◌≡◌, take};
ghost use Rattle.tables.specs.View.{view, Sized, machine_len};

use crate::{MACHINE_LEN, StateBytes};

// The bytes of the machine, of any bytes that have so many: they say what all of them say.
pub fn machine(s: &[u8]) -> &StateBytes
    requires { Sized s.now }
    ensures front { result.now ≡ take machine_len s.now }
    ensures same_view { view result.now ≡ view s.now }
{
    s.first_chunk::<MACHINE_LEN>().unwrap()
}
