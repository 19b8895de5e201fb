// An entry of a stack of small numbers, counted from the newest.
ghost use Rattle.std.specs.Prelude.{◌≡◌, ◌<◌, length};
ghost use Rattle.rules.specs.Table.{get};
ghost use Rattle.layout.specs.Numbers.{stack};
ghost use Rattle.layout.specs.Stack.{Room};

// kept: 255 for a count past the table, since `view` reads it as that number.
pub(crate) fn entry(r: &[u8], k: usize) -> usize
    requires room { Room r.now }
    requires k_in_bounds { k < length (stack r.now) }
    ensures { result ≡ get 0 (stack r.now) k }
{
    let n = usize::from(r[0]);
    if r.len() <= n {
        255
    } else {
        usize::from(r[n - k])
    }
}
