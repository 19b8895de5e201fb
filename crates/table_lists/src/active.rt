// The split that a slot has.
ghost use Rattle.std.specs.Prelude.{◌≡◌};
ghost use Rattle.std.proofs.Math.Option.{none};
ghost use Rattle.rules.specs.Table.{get, put};
ghost use Rattle.rules.specs.Machine.{with_active};
ghost use Rattle.numbers.specs.Opt.{option_of};
ghost use Rattle.rules.specs.Check.{is_active};
ghost use Rattle.tables.specs.Change.{Becomes};
ghost use Rattle.tables.specs.View.{view, Sized};

use tables::front::machine;
use tables::{SlotIndex, StateBytes};

const ACTIVE: usize = 6;

// A slot's split, or nothing.
pub fn load_active(s: &StateBytes, k: SlotIndex) -> Option<u8>
    ensures { option_of result ≡ get none (view s.now).active k.at }
{
    let a = ACTIVE + k.at * 2;
    layout::flags::option(s[a], s[a + 1])
}

// Another split for a slot, or nothing.
pub fn store_active(s: &mut StateBytes, k: SlotIndex, x: Option<u8>)
    ensures { Becomes (λ m. with_active (put none m.active k.at (option_of x)) m) s.old s.new }
{
    let a = ACTIVE + k.at * 2;
    s[a..a + 2].copy_from_slice(&[u8::from(x.is_some()), x.unwrap_or(0)]);
}

// Whether a slot of the machine has a split.
fn has_split(s: &StateBytes, k: usize) -> bool
    ensures { result ≡ is_active (view s.now) k }
{
    k < 3 && load_active(s, SlotIndex { at: k }).is_some()
}

// Whether a slot has a split.
pub fn is_active(s: &[u8], k: usize) -> bool
    requires { Sized s.now }
    ensures { result ≡ is_active (view s.now) k }
{
    has_split(machine(s), k)
}
