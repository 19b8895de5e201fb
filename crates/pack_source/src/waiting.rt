// The set of the inlets that a pack waits for is lent where it lies in the source, and changed there.
ghost use Rattle.std.specs.Prelude.{◌≡◌};
ghost use Rattle.std.specs.Result.{is_ok};
ghost use Rattle.numbers.specs.Opt.{either_of};
ghost use Rattle.rules.specs.InletSet.{remove};
ghost use Rattle.inlet_set.specs.InletSet.{set_of};
ghost use Rattle.inlet_set.specs.Insert.{Insert};
ghost use Rattle.pack_source.specs.Pack.{with_waiting};

use crate::pack::PackSource;
use inlet_set::lent;

// With an inlet that waits; as it was, where there is no place.
pub(crate) fn with(pack: PackSource, inlet: u8) -> Result<PackSource, PackSource>
    ensures set { Insert inlet pack.waiting (is_ok result) (either_of result).waiting }
    ensures rest { either_of result ≡ with_waiting pack (either_of result).waiting }
{
    let mut p = pack;
    if lent::insert(&mut p.waiting, inlet) {
        Ok(p)
    } else {
        Err(p)
    }
}

// Without one that does not.
pub(crate) fn without(pack: PackSource, inlet: u8) -> PackSource
    ensures set { set_of result.waiting ≡ remove inlet (set_of pack.waiting) }
    ensures rest { result ≡ with_waiting pack result.waiting }
{
    let mut p = pack;
    lent::remove(&mut p.waiting, inlet);
    p
}
