// Sets of different inlet numbers.
ghost use Rattle.std.specs.Prelude.{◌≡◌, ◌<◌};
ghost use Rattle.rules.specs.Check.{set_ok};
ghost use Rattle.inlet_set.specs.InletSet.{set_of};
ghost use Rattle.check_sources.specs.Sets.{number_ok};

use inlet_set::InletSet;

// Whether a number is below n, and none of those before it.
fn number_ok(n: usize, x: InletSet, k: usize) -> bool
    requires { k < 23 }
    ensures { result ≡ number_ok n x.indices k }
{
    let i = x.indices[k];
    let older = InletSet { len: k, ..x };
    usize::from(i) < n && !older.has(i)
}

// Whether a set has different numbers below n.
pub fn set_ok(n: usize, x: InletSet) -> bool
    ensures { result ≡ set_ok n (set_of x) }
{
    for k in (0..x.len()).rev() {
        if !number_ok(n, x, k) {
            return false;
        }
    }
    true
}
