// Many ports at a time: where all their bytes are 0, none of them is in use and nothing waits in them.
ghost use Rattle.std.specs.Prelude.{◌≡◌, true, ◌+◌, ◌*◌, ◌-◌, ◌≤◌};
ghost use Rattle.layout.specs.Blank.{blank};
ghost use Rattle.layout.specs.Cut.{cut};
ghost use Rattle.tables.specs.View.{view};
ghost use Rattle.table_ports.specs.Blank.{NoPorts, Idle};

use crate::ports::PORTS;
use crate::rings::RINGS;
use crate::share_flags::SHARES;
use tables::StateBytes;

// kept: these three are one call each; a function over all tables would take the place, the size of a record and the ghost of what it says.

// Whether the bytes of the n ports from x on are 0.
pub fn blank_ports(s: &StateBytes, x: usize, n: usize) -> bool
    requires n_bound { x + n ≤ 456 }
    ensures value { result ≡ blank (cut (14751 + x * 6) (14751 + x * 6 + n * 6) s.now) }
    ensures no_ports { result ≡ true → NoPorts (view s.now) x n }
{
    let a = PORTS + x * 6;
    layout::blank::is_blank(&s[a..a + n * 6])
}

// Whether the rings of the n ports from x on, which are of slots, are 0.
pub fn blank_rings(s: &StateBytes, x: usize, n: usize) -> bool
    requires n_bound { x + n ≤ 72 }
    ensures value { result ≡ blank (cut (17487 + x * 2) (17487 + x * 2 + n * 2) s.now) }
    ensures idle { result ≡ true → Idle (view s.now) x n }
{
    let a = RINGS + x * 2;
    layout::blank::is_blank(&s[a..a + n * 2])
}

// Whether the flags of the n ports from x on, which are shared, are 0.
pub fn blank_shares(s: &StateBytes, x: usize, n: usize) -> bool
    requires le_x { 72 ≤ x }
    requires n_bound { x + n ≤ 456 }
    ensures value { result ≡ blank (cut (17631 + (x - 72)) (17631 + (x - 72) + n) s.now) }
    ensures idle { result ≡ true → Idle (view s.now) x n }
{
    let a = SHARES + (x - 72);
    layout::blank::is_blank(&s[a..a + n])
}
