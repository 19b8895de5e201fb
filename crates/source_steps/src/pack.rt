// The source that joins the rows of its inlets.
ghost use Rattle.std.specs.Prelude.{◌≡◌, false, [], ◌≤◌};
ghost use Rattle.rules.specs.Table.{get, any, is_empty};
ghost use Rattle.rules.specs.Operators.{pack_fault, pack_ready};
ghost use Rattle.rules.specs.Machine.{inlets_at, queue_at, fault_if};
ghost use Rattle.rules.specs.Drive.{test_pack, take_each, pack_rows, pack_step};
ghost use Rattle.inlet_set.specs.InletSet.{set_of};
ghost use Rattle.operator.specs.Answer.{ready_of, step_of, width_of};
ghost use Rattle.pack_source.specs.Pack.{seen_in};
ghost use Rattle.tables.specs.Change.{Becomes};
ghost use Rattle.tables.specs.View.{view};
ghost use Rattle.source_steps.specs.Noting.{Packing};
ghost use Rattle.source_steps.specs.Fronts.{Taking};

use crate::{fronts, noting, taking, touching};
use batches::Batch;
use operator::{SourceReady, Step};
use pack_source::PackSource;
use tables::{PipeIndex, SlotPortIndex, StateBytes};

// Whether fields ended at different rows.
fn ended_apart(x: PackSource) -> bool
    ensures { result ≡ pack_fault (seen_in x) (set_of x.waiting) }
{
    x.ready().is_err()
}

// What a pack answers from what it noted.
fn answer(s: &mut StateBytes, p: PipeIndex) -> SourceReady
    ensures result_value { ready_of result ≡ pack_ready (get [] (view s.old).waits p.at) }
    ensures becomes { Becomes (λ m. fault_if (pack_fault (get [] m.seen p.at) (get [] m.waits p.at)) m) s.old s.new }
{
    let x = table_sets::packs::load_pack(s, p);
    table_lists::causes::fault_if(s, ended_apart(x));
    pack_source::pack_ready::on_newest(x.waiting)
}

// The test of a pack: it looks at the inlets that changed.
pub(crate) fn test(s: &mut StateBytes, p: PipeIndex) -> SourceReady
    requires packing { Packing p.at (view s.old) }
    ensures result_value { ready_of result ≡ (test_pack p.at (view s.old)).0 }
    ensures becomes { Becomes (λ m. (test_pack p.at m).1) s.old s.new }
{
    noting::observe_all(s, p);
    answer(s, p)
}

// n rows are taken of every inlet, which is then looked at.
fn take_each(s: &mut StateBytes, p: PipeIndex, n: u32)
    requires taking { Taking p.at n (inlets_at (view s.old) p.at) (view s.old) }
    ensures { Becomes (λ m. take_each p.at n 0 (inlets_at m p.at) m) s.old s.new }
{
    let count = table_pipes::inlets::inlet_count(s, p);
    for i in 0..count {
        let x = table_pipes::inlets::inlet(s, p, i);
        taking::take_rows(s, SlotPortIndex { at: x }, n);
        noting::observe(s, p, i);
    }
}

// The least front of every inlet is taken, side by side.
fn rows(s: &mut StateBytes, p: PipeIndex) -> Step
    requires packing { Packing p.at (view s.old) }
    requires p_value { any (λ x. is_empty (queue_at (view s.old) x)) (inlets_at (view s.old) p.at) ≡ false }
    ensures result_value { step_of result ≡ (pack_rows p.at (inlets_at (view s.old) p.at) (view s.old)).0 }
    ensures width_bound { width_of result ≤ 4 }
    ensures becomes { Becomes (λ m. (pack_rows p.at (inlets_at m p.at) m).1) s.old s.new }
{
    let count = table_pipes::inlets::inlet_count(s, p);
    let all = fronts::fronts_of(s, p);
    let n = all.least();
    let joined = all.side_by_side(n).unwrap_or(Batch::none());
    touching::touch_from(s, p, 0, count);
    take_each(s, p, n);
    Step::Final(joined.trimmed())
}

// What a pack gives.
pub(crate) fn step(s: &mut StateBytes, p: PipeIndex) -> Step
    requires packing { Packing p.at (view s.old) }
    ensures result_value { step_of result ≡ (pack_step p.at (inlets_at (view s.old) p.at) (view s.old)).0 }
    ensures width_bound { width_of result ≤ 4 }
    ensures becomes { Becomes (λ m. (pack_step p.at (inlets_at m p.at) m).1) s.old s.new }
{
    let count = table_pipes::inlets::inlet_count(s, p);
    if table_sets::packs::load_pack(s, p).ended_count() == count {
        return Step::End;
    }
    if fronts::any_empty(s, p) {
        table_lists::causes::fault_if(s, true);
        return Step::End;
    }
    rows(s, p)
}
