// The cutting stage, and what goes out.
ghost use Rattle.std.specs.Prelude.{◌≡◌, ℕ, ◌≤◌};
ghost use Rattle.std.proofs.Math.Option.{some};
ghost use Rattle.rules.specs.Machine.{stage_at};
ghost use Rattle.rules.specs.Ports.{push_out};
ghost use Rattle.rules.specs.Drive.{is_more, stage_step, give_out, source_out, said_more, finished_stages, is_over};
ghost use Rattle.numbers.specs.Opt.{option_of};
ghost use Rattle.batches.specs.Batch.{batch_of};
ghost use Rattle.operator.specs.Answer.{step_of};
ghost use Rattle.table_pipes.specs.Stage.{stage_of};
ghost use Rattle.order.specs.RangePorts.{OutFits};
ghost use Rattle.order.specs.RangeStep.{Gives};
ghost use Rattle.tables.specs.Change.{Becomes};
ghost use Rattle.tables.specs.View.{view};
ghost use Rattle.driver.specs.Able.{Able};
ghost use Rattle.driver.specs.Turns.{has_turn, finish_next, stage_turn, Cuts};

use batches::Batch;
use operator::Step;
use segment_source::Cut;
use table_pipes::Stage;
use tables::{PipeIndex, StateBytes};

pub(crate) fn is_more(x: Step) -> bool
    ensures { result ≡ is_more (step_of x) }
{
    matches!(x, Step::More(_))
}

// A batch goes out.
fn push(s: &mut StateBytes, p: PipeIndex, b: Batch)
    requires able { Able p.at (view s.old) }
    requires out_fits { OutFits (view s.old).job p.at (batch_of b) }
    ensures { Becomes (push_out p.at (batch_of b)) s.old s.new }
{
    outlets::each::push_out(s, p, b.trimmed());
}

// Whether the source has ended, and every stage is finished and none continues.
pub(crate) fn is_over(x: Stage) -> bool
    ensures { result ≡ is_over (stage_of x) }
{
    !x.continuing
        && match x.finishing {
            None => false,
            Some(n) => u8::from(x.cut.is_some()) == n,
        }
}

// Whether a stage continues or is to be finished.
pub(crate) fn has_turn(x: Stage) -> bool
    ensures { result ≡ has_turn (stage_of x) }
{
    x.continuing || x.finishing.is_some()
}

// The stage gives its next run.
fn stage_step(s: &mut StateBytes, p: PipeIndex, at: u8) -> Step
    ensures result_value { step_of result ≡ (stage_step p.at at (view s.old)).0 }
    ensures becomes { Becomes (λ m. (stage_step p.at at m).1) s.old s.new }
{
    let (step, cut) = Cut { at }.next(reach::places::pieces_at(s, p));
    let x = Stage {
        cut: Some(cut.at),
        continuing: is_more(step),
        ..table_pipes::stages::load_stage(s, p)
    };
    table_pipes::stages::store_stage(s, p, x);
    step
}

// What was given goes out.
fn give_out(s: &mut StateBytes, p: PipeIndex, x: Step)
    requires able { Able p.at (view s.old) }
    requires gives { Gives (OutFits (view s.old).job p.at) (step_of x) }
    ensures { Becomes (λ m. give_out p.at (step_of x, m)) s.old s.new }
{
    match x {
        Step::End => {}
        Step::More(b) | Step::Final(b) => push(s, p, b),
    }
}

// The stage's next run goes out.
fn cut_out(s: &mut StateBytes, p: PipeIndex, at: u8)
    requires able { Able p.at (view s.old) }
    requires cuts { Cuts (view s.old) p.at at }
    ensures { Becomes (λ m. give_out p.at (stage_step p.at at m)) s.old s.new }
{
    let x = stage_step(s, p, at);
    give_out(s, p, x);
}

// A batch of the source goes through the stage, if there is one.
pub(crate) fn source_out(s: &mut StateBytes, p: PipeIndex, b: Batch)
    requires able { Able p.at (view s.old) }
    requires out_fits { OutFits (view s.old).job p.at (batch_of b) }
    ensures { Becomes (source_out p.at (batch_of b)) s.old s.new }
{
    match table_pipes::stages::load_stage(s, p).cut {
        None => push(s, p, b),
        Some(_) => cut_out(s, p, 0),
    }
}

// Whether the source last said More.
pub(crate) fn said_more(s: &mut StateBytes, p: PipeIndex, more: bool)
    ensures { Becomes (said_more p.at more) s.old s.new }
{
    let x = table_pipes::stages::load_stage(s, p);
    table_pipes::stages::store_stage(s, p, Stage { more, ..x });
}

// n stages are finished.
pub(crate) fn finished_stages(s: &mut StateBytes, p: PipeIndex, n: u8)
    ensures { Becomes (finished_stages p.at n) s.old s.new }
{
    let x = Stage {
        finishing: Some(n),
        ..table_pipes::stages::load_stage(s, p)
    };
    table_pipes::stages::store_stage(s, p, x);
}

// The next stage is finished, where one is to be.
fn finish_stage(s: &mut StateBytes, p: PipeIndex, x: Option<u8>)
    requires by_index { (n : ℕ) → option_of x ≡ some n → n ≤ 1 }
    ensures { Becomes (finish_next p.at (option_of x)) s.old s.new }
{
    match x {
        None => {}
        Some(n) => finished_stages(s, p, n + 1),
    }
}

// The stage's turn: it continues, or the next one is finished.
pub(crate) fn stage_turn(s: &mut StateBytes, p: PipeIndex, x: Stage)
    requires able { Able p.at (view s.old) }
    requires x_value { stage_of x ≡ stage_at (view s.old) p.at }
    ensures { Becomes (stage_turn p.at (stage_of x)) s.old s.new }
{
    if x.continuing {
        cut_out(s, p, x.cut.unwrap_or(0));
    } else {
        finish_stage(s, p, x.finishing);
    }
}
