// Bytes that are all 0: where nothing is in use, a test of many bytes at once stands for a test of each entry.
ghost use Rattle.std.specs.Prelude.{◌≡◌};
ghost use Rattle.layout.specs.Blank.{blank};

// Whether all bytes are 0. It reads every byte, so that the compiler can take many at a time.
pub fn is_blank(r: &[u8]) -> bool
    ensures { result ≡ blank r.now }
{
    let mut ok = true;
    for &b in r {
        ok &= b == 0;
    }
    ok
}
