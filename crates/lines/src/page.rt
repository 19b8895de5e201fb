// Text put into lent bytes as far as it fits.
ghost use Rattle.std.specs.Prelude.{◌≡◌};
ghost use Rattle.lines.specs.Page.{page, put, puts};

// How many of the lent bytes hold the text's front, and whether that is the whole text.
#[derive(Clone, Copy)]
pub struct Written {
    pub len: usize,
    pub whole: bool,
}

// One byte more.
#[tactic(auto, using(crate::specs::PageLaws::put_fits, crate::specs::PageLaws::put_full))]
fn byte(out: &mut [u8], w: Written, b: u8) -> Written
    ensures { page out.new result ≡ put b (page out.old w) }
{
    if out.len() <= w.len {
        return Written { whole: false, ..w };
    }
    out[w.len] = b;
    Written {
        len: w.len + 1,
        ..w
    }
}

// Some bytes more.
pub(crate) fn text(out: &mut [u8], w: Written, b: &[u8]) -> Written
    ensures { page out.new result ≡ puts b.now (page out.old w) }
{
    let mut done = w;
    for &x in b {
        done = byte(out, done, x);
    }
    done
}
