// The call at the front of the bytes.
ghost use Rattle.std.specs.Prelude.{◌≡◌, drop};
ghost use Rattle.rules.specs.Session as rule;
ghost use Rattle.call_records.specs.Calls.{called_of, CallEnds, wanted_at};

use records::{fields, marks};

// A call.
#[derive(Clone, Copy)]
pub enum Call {
    Step,
    Deliver(u32, u32),
}

// A delivery: its read and its rows.
fn delivery(b: &[u8], at: usize) -> Option<(Call, usize)>
    ensures result_value { called_of b.now result ≡ rule.delivery_fields (drop at b.now) }
    ensures call_ends { CallEnds b.now at result }
{
    let (read, p) = fields::word(b, at)?;
    let (rows, next) = fields::word(b, p)?;
    Some((Call::Deliver(read, rows), next))
}

// The call at a position, and the position after it; none where its mark is unknown or it is cut short.
#[tactic(auto, using(crate::specs::CallLaws::call_short, crate::specs::CallLaws::call_step, crate::specs::CallLaws::call_delivery, crate::specs::CallLaws::call_none))]
pub fn next_call(b: &[u8], at: usize) -> Option<(Call, usize)>
    ensures result_value { called_of b.now result ≡ rule.next_call (drop at b.now) }
    ensures call_ends { CallEnds b.now at result }
{
    if b.len() < 2 || b.len() - 2 < at {
        return None;
    }
    let x = b[at];
    let y = b[at + 1];
    if marks::is(x, y, b'S', b'T') {
        return Some((Call::Step, at + 2));
    }
    if marks::is(x, y, b'D', b'L') {
        return delivery(b, at + 2);
    }
    None
}

// How many bytes from a position on tell what call stands there.
#[tactic(auto, using(crate::specs::CallLaws::wanted_short))]
pub fn wanted(b: &[u8], at: usize) -> usize
    ensures { result ≡ wanted_at (drop at b.now) }
{
    if b.len() < 2 || b.len() - 2 < at {
        return 2;
    }
    if marks::is(b[at], b[at + 1], b'D', b'L') {
        10
    } else {
        2
    }
}
