// The columns of an output.
ghost use Rattle.std.specs.Prelude.{◌≡◌};
ghost use mathlib.Core.List.{flat_map};
ghost use Rattle.rules.specs.Session as rule;
ghost use Rattle.batches.specs.Batch.{batch_of};
ghost use Rattle.lines.specs.Page.{page, puts};

use crate::digits::decimal;
use crate::page::{Written, text};
use batches::Batch;

// One column: its segment and its first row.
fn column(out: &mut [u8], w: Written, segment: u32, first: u32) -> Written
    ensures { page out.new result ≡ puts (rule.column (record { segment = segment; row = first })) (page out.old w) }
{
    let a = text(out, w, b" ");
    let b = decimal(out, a, segment);
    let c = text(out, b, b":");
    decimal(out, c, first)
}

// All columns.
pub(crate) fn columns(out: &mut [u8], w: Written, b: Batch) -> Written
    ensures { page out.new result ≡ puts (flat_map rule.column (batch_of b).cells) (page out.old w) }
{
    let mut done = w;
    for i in 0..b.width.min(4) {
        done = column(out, done, b.segment[i], b.first[i]);
    }
    done
}
