// A line for each answer.
ghost use Rattle.std.specs.Prelude.{◌≡◌, ◌≤◌, length};
ghost use Rattle.rules.specs.Session as rule;
ghost use Rattle.batches.specs.Batch.{batch_of};
ghost use Rattle.lines.specs.Page.{page, puts};
ghost use Rattle.lines.specs.Lines.{turn_text, run_text, opened_text};
ghost use Rattle.turn.specs.Told.{says};

use crate::columns::columns;
use crate::digits::decimal;
use crate::page::{Written, text};
use batches::Batch;
use turn::{Told, Turn};

// A read: its number and its segment, with the line's end.
fn read_line(out: &mut [u8], w: Written, read: u8, segment: u32) -> Written
    ensures { page out.new result ≡ puts (rule.ended (rule.read_line read segment)) (page out.old w) }
{
    let a = text(out, w, b"read ");
    let b = decimal(out, a, u32::from(read));
    let c = text(out, b, b" ");
    let d = decimal(out, c, segment);
    text(out, d, b"\n")
}

// An output: its split, its rows and its columns, with the line's end.
fn out_line(out: &mut [u8], w: Written, split: u8, x: Batch) -> Written
    ensures { page out.new result ≡ puts (rule.ended (rule.out_line split (batch_of x))) (page out.old w) }
{
    let a = text(out, w, b"out ");
    let b = decimal(out, a, u32::from(split));
    let c = text(out, b, b" ");
    let d = decimal(out, c, x.rows);
    let e = columns(out, d, x);
    text(out, e, b"\n")
}

// A refusal by its number, with the line's end.
pub fn refused_line(out: &mut [u8], w: Written, n: u8) -> Written
    ensures { page out.new result ≡ puts (rule.ended (rule.no_line n)) (page out.old w) }
{
    let a = text(out, w, b"no ");
    let b = decimal(out, a, u32::from(n));
    text(out, b, b"\n")
}

// A refusal by its number and the index of a run at fault, with the line's end.
fn run_line(out: &mut [u8], w: Written, n: u8, i: u8) -> Written
    ensures { page out.new result ≡ puts (run_text n i) (page out.old w) }
{
    let a = text(out, w, b"no ");
    let b = decimal(out, a, u32::from(n));
    let c = text(out, b, b" ");
    let d = decimal(out, c, u32::from(i));
    text(out, d, b"\n")
}

// A refusal, with the index of a run at fault where it has one, and the line's end.
fn refusal_line(out: &mut [u8], w: Written, t: Told) -> Written
    ensures { page out.new result ≡ puts (rule.ended (rule.refusal_line (says t))) (page out.old w) }
{
    match t.run {
        None => refused_line(out, w, t.number),
        Some(i) => run_line(out, w, t.number, i),
    }
}

// An opening, with the line's end.
pub fn open_line(out: &mut [u8], w: Written) -> Written
    ensures { page out.new result ≡ puts (rule.ended rule.open_line) (page out.old w) }
{
    text(out, w, b"open\n")
}

// What an opening says.
pub fn opened_line(out: &mut [u8], w: Written, x: Result<(), Told>) -> Written
    ensures { page out.new result ≡ puts (opened_text x) (page out.old w) }
{
    match x {
        Ok(()) => open_line(out, w),
        Err(t) => refusal_line(out, w, t),
    }
}

// What a step or a delivery says.
#[tactic(auto, using(crate::specs::Short::read_short, crate::specs::Short::out_short, crate::specs::Short::no_short), unfolding(rules::specs::Session::turn_line))]
pub fn turn_line(out: &mut [u8], w: Written, x: Turn<Told>) -> Written
    ensures result_after { page out.new result ≡ puts (turn_text x) (page out.old w) }
    ensures x_len_bound { length (turn_text x) ≤ 128 }
{
    match x {
        Turn::Read(r, g) => read_line(out, w, r, g),
        Turn::Output(s, b) => out_line(out, w, s, b),
        Turn::Waiting => text(out, w, b"wait\n"),
        Turn::Done => text(out, w, b"done\n"),
        Turn::Refused(t) => refused_line(out, w, t.number),
    }
}
