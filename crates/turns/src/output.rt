// What is said, as it goes out.
ghost use Rattle.std.specs.Prelude.{◌≤◌, length, take};
ghost use Rattle.std.specs.Io.KnownBytes.{Appends};
ghost use Rattle.turns.specs.Took.{Took};

use std::io::Write;

// How many of the bytes one write takes: none where it fails.
fn accepted<W: Write>(output: &mut W, text: &[u8]) -> usize
    ensures bound { result ≤ length text.now }
    ensures bytes { Appends (W.contents output.old) (W.contents output.new) (take result text.now) }
{
    output.write(text).unwrap_or(0)
}

// All of a text written, and handed on at once: false at the first write that fails or takes nothing.
pub(crate) fn write_all<W: Write>(output: &mut W, text: &[u8]) -> bool
    ensures { Took result (W.contents output.old) (W.contents output.new) text.now }
{
    // kept: std's `write_all` goes on after a write that was interrupted; this ends there, as the program always did.
    let mut done: usize = 0;
    while done < text.len() {
        let n = accepted(output, &text[done..]);
        if n == 0 {
            return false;
        }
        done += n;
    }
    output.flush().is_ok()
}
