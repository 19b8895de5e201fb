// Whether a stack of small numbers holds a number.
ghost use Rattle.std.specs.Prelude.{◌≡◌};
ghost use Rattle.rules.specs.Table.{has};
ghost use Rattle.layout.specs.Numbers.{stack};
ghost use Rattle.layout.specs.Stack.{Room};

pub(crate) fn holds(r: &[u8], k: u8) -> bool
    requires { Room r.now }
    ensures { result ≡ has k (stack r.now) }
{
    let n = usize::from(r[0]);
    if r.len() <= n {
        k == 255
    } else {
        r[1..=n].contains(&k)
    }
}
