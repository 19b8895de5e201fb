// A record before the splits, checked against the draft.
ghost use Rattle.std.specs.Prelude.{◌≡◌, false, List, ℕ, OnErr};
ghost use Rattle.rules.specs.Job as rule;
ghost use Rattle.records.specs.Read.{record_of};
ghost use Rattle.jobs.specs.Refusal.{judged};
ghost use Rattle.node_records.specs.Draft.{reading_of, Fine};
ghost use Rattle.node_records.specs.Marks.{SplitIs};

use crate::{Draft, join, leaf};
use jobs::{Kind, Refusal};
use records::Record;

// Whether a record is a split.
pub fn is_split(r: Record) -> bool
    ensures { SplitIs result r }
{
    matches!(r, Record::Split(_, _, _, _))
}

// The draft takes a record that is no split.
pub fn accept_record(d: &mut Draft, r: Record) -> Result<(), Refusal>
    requires fine { Fine d.old }
    requires split_is { SplitIs false r }
    ensures by_index { (xs : List ℕ) → judged result (reading_of d.new) ≡ rule.accept (record_of xs r) (reading_of d.old) }
    ensures fine_2 { Fine d.new }
    ensures refused { OnErr result (d.new ≡ d.old) }
{
    match r {
        Record::Slots(n) => leaf::accept_slots(d, n),
        Record::Leaf(g, n) => leaf::accept_leaf(d, g, n),
        Record::Concat(n) => join::accept_join(d, Kind::Concat, n),
        Record::Pack(n) => join::accept_join(d, Kind::Pack, n),
        Record::Split(_, _, _, _) => Err(Refusal::Malformed),
    }
}
