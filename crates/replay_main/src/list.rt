// The list as it is read: for each session the length of its input in four bytes, the input, the length of the answers, the answers.
ghost use Rattle.std.specs.Prelude.{◌≤◌, length as count_of, take, IfSome};
ghost use Rattle.replay_main.specs.Parts.{Size, Part};

use records::fields;
use std::io::Read;

// A length; none where the list has ended.
fn length<R: Read>(list: &mut R) -> Option<usize>
    ensures { IfSome result (Size (R.remaining list.old) (R.remaining list.new)) }
{
    let mut b = [0u8; 4];
    if list.read_exact(&mut b).is_err() {
        return None;
    }
    Some(fields::number(&b, 0) as usize)
}

// The next part of the list: its length, with its bytes in the buffer; none where the list has ended, or there is no room for them.
pub(crate) fn part<R: Read>(list: &mut R, buf: &mut [u8]) -> Option<usize>
    ensures bound { IfSome result (λ n. n ≤ count_of buf.new) }
    ensures part { IfSome result (λ n. Part (R.remaining list.old) (R.remaining list.new) (take n buf.new)) }
{
    let n = length(list)?;
    if buf.len() < n {
        return None;
    }
    if list.read_exact(&mut buf[..n]).is_err() {
        return None;
    }
    Some(n)
}
