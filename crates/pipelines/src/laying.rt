// A pipeline at its place.
ghost use Rattle.std.specs.Prelude.{◌≡◌, true, false, [], ◌≤◌, replicate, if◌then◌else◌};
ghost use Rattle.std.proofs.Math.Option.{none};
ghost use Rattle.rules.specs.Port.{waiting};
ghost use Rattle.rules.specs.Machine.{set_pipe, set_source, set_stage, set_inlets, set_touched, set_changed, set_waits, set_seen};
ghost use Rattle.rules.specs.Pipelines.{all_inlets, fresh, is_pack_source, lay};
ghost use Rattle.numbers.specs.Opt.{option_of};
ghost use Rattle.table_pipes.specs.Source.{source_of};
ghost use Rattle.table_pipes.specs.Inlets.{inlets_of};
ghost use Rattle.tables.specs.Change.{Becomes};

use inlet_set::InletSet;
use operator::Pipeline;
use pack_source::PackSource;
use table_pipes::{Inlets, Source, Stage};
use table_sets::sets::{self, Changed, Touched};
use tables::{PipeIndex, StateBytes};

// Of how many inlets a source notes what they show: a pack, of all.
fn noted(x: Source, n: usize) -> usize
    ensures { result ≡ (if is_pack_source (source_of x) then n else 0) }
{
    if matches!(x, Source::Pack) { n } else { 0 }
}

// No inlet touched, all n changed, k noted as waiting.
fn lay_sets(s: &mut StateBytes, p: PipeIndex, n: usize, k: usize)
    requires n_bound { n ≤ 23 }
    requires k_bound { k ≤ 4 }
    ensures { Becomes (λ m. set_touched p.at [] (set_changed p.at (all_inlets n) (set_waits p.at (all_inlets k) (set_seen p.at (replicate k waiting) m))))
        s.old s.new }
{
    table_sets::packs::store_pack(s, p, PackSource::new(k));
    sets::store::<Changed>(s, p, InletSet::all(n));
    sets::store::<Touched>(s, p, InletSet::new());
}

// The pipeline itself, its source, its stage and its inlets.
fn lay_parts(s: &mut StateBytes, p: PipeIndex, source: Source, cut: Option<u8>, xs: Inlets)
    requires len_bound { xs.len ≤ 23 }
    ensures { Becomes (λ m. set_pipe p.at fresh (set_source p.at (source_of source)
        (set_stage p.at (record { cut = option_of cut; continuing = false; finishing = none; more = false }) (set_inlets p.at (inlets_of xs) m))))
        s.old s.new }
{
    table_pipes::inlets::store_inlets(s, p, xs);
    let stage = Stage {
        cut,
        continuing: false,
        finishing: None,
        more: false,
    };
    table_pipes::stages::store_stage(s, p, stage);
    table_pipes::source_table::store_source(s, p, source);
    table_pipes::pipes::store_pipe(s, p, Pipeline::fresh());
}

// A pipeline at its place, runnable, with every inlet changed.
pub fn lay(s: &mut StateBytes, p: PipeIndex, source: Source, cut: Option<u8>, xs: Inlets)
    requires len_bound { xs.len ≤ 23 }
    requires len_bound_2 { is_pack_source (source_of source) ≡ true → xs.len ≤ 4 }
    ensures { Becomes (lay p.at (source_of source) (option_of cut) (inlets_of xs)) s.old s.new }
{
    if table_pipes::pipes::is_live(s, p) {
        table_lists::causes::fault_if(s, true);
        return;
    }
    lay_sets(s, p, xs.len, noted(source, xs.len));
    lay_parts(s, p, source, cut, xs);
}
