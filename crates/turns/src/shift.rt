// Bytes moved to the front.
ghost use Rattle.std.specs.Prelude.{◌≡◌, ◌+◌, ◌≤◌, length, take, drop};

// The n bytes from `at` on, moved to the front.
pub(crate) fn shift(buf: &mut [u8], at: usize, n: usize)
    requires { at + n ≤ length buf.old }
    ensures { take n buf.new ≡ take n (drop at buf.old) }
{
    buf.copy_within(at..at + n, 0);
}
