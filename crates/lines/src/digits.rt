// A number by its digits.
ghost use Rattle.std.specs.Prelude.{◌≡◌, ◌+◌, ◌<◌};
ghost use Rattle.rules.specs.Session as rule;
ghost use Rattle.lines.specs.Page.{page, puts};

use crate::page::{Written, text};

// A digit as a byte.
fn digit(n: u32) -> u8
    requires { n < 10 }
    ensures { result ≡ 48 + n }
{
    b'0' + n as u8
}

// A number as it is printed: its digits, from the last to the first.
pub(crate) fn decimal(out: &mut [u8], w: Written, n: u32) -> Written
    ensures { page out.new result ≡ puts (rule.decimal n) (page out.old w) }
{
    let mut bytes = [0u8; 10];
    let mut from: usize = 10;
    let mut left = n;
    while 10 <= left {
        from -= 1;
        bytes[from] = digit(left % 10);
        left /= 10;
    }
    from -= 1;
    bytes[from] = digit(left);
    text(out, w, &bytes[from..])
}
