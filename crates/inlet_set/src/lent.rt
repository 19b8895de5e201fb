// Sets that are lent, and changed where they lie.
ghost use Rattle.std.specs.Prelude.{◌≡◌};
ghost use Rattle.rules.specs.InletSet.{remove};
ghost use Rattle.inlet_set.specs.InletSet.{set_of};
ghost use Rattle.inlet_set.specs.Insert.{Insert};
ghost use Rattle.inlet_set.specs.Pop.{Pop};

use crate::set::InletSet;

// Whether the number was accepted: it is then in the set, the newest unless it was there.
pub fn insert(set: &mut InletSet, inlet: u8) -> bool
    ensures { Insert inlet set.old result set.new }
{
    let was = *set;
    match was.insert(inlet) {
        Ok(with) => {
            *set = with;
            true
        }
        Err(_) => false,
    }
}

pub fn remove(set: &mut InletSet, inlet: u8)
    ensures { set_of set.new ≡ remove inlet (set_of set.old) }
{
    let was = *set;
    *set = was.remove(inlet);
}

// The newest, which is no longer in the set.
pub fn pop(set: &mut InletSet) -> Option<u8>
    ensures { Pop set.old result set.new }
{
    let was = *set;
    let (newest, rest) = was.pop();
    *set = rest;
    newest
}
