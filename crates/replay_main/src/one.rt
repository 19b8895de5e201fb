// One session replayed.
ghost use Rattle.std.specs.Prelude.{◌≡◌, take, IfSome};
ghost use Rattle.std.specs.Bool.{Decides};
ghost use Rattle.rules.specs.Session as rule;
ghost use Rattle.replay_main.specs.Parts.{Replays};

use crate::list;
use std::io::Read;

// Whether the port prints these answers: they are the rule's session of the input, as far as there is room.
fn prints(input: &[u8], answers: &[u8]) -> bool
    ensures { Decides result (answers.now ≡ take 65536 (rule.session input.now)) }
{
    let mut state = [0u8; 39351];
    let mut out = [0u8; 65536];
    let w = session::session(input, &mut state, &mut out);
    if 65536 < w.len {
        return false;
    }
    &out[..w.len] == answers
}

// The next session of the list: whether it is answered as it says; none where the list has ended.
pub(crate) fn replay<R: Read>(list: &mut R, input: &mut [u8], answers: &mut [u8]) -> Option<bool>
    ensures { IfSome result (Replays (R.remaining list.old) (R.remaining list.new)) }
{
    let n = list::part(list, input)?;
    let m = list::part(list, answers)?;
    Some(prints(&input[..n], &answers[..m]))
}
