// All bytes 0.
ghost use Rattle.std.specs.Prelude.{◌≡◌, ◌++◌, ◌≤◌, length, take, drop, replicate};
ghost use Rattle.rules.specs.Machine.{zeroed};
ghost use Rattle.tables.specs.View.{view, machine_len};
ghost use Rattle.table_blank.specs.Zeros.{tables_len};

use tables::StateBytes;

// The batches stand from here on, behind all other tables.
const BATCHES: usize = 18015;

// The first n bytes 0.
fn wipe(s: &mut [u8], n: usize)
    requires { n ≤ length s.old }
    ensures { s.new ≡ replicate n 0 ++ drop n s.old }
{
    s[..n].fill(0);
}

// Every byte of the machine 0, which is one with nothing in use.
pub fn clear(s: &mut StateBytes)
    ensures s_after { take machine_len s.new ≡ replicate machine_len 0 }
    ensures s_unchanged { drop machine_len s.new ≡ drop machine_len s.old }
    ensures s_after_2 { view s.new ≡ zeroed }
{
    wipe(s, tables::MACHINE_LEN);
}

// Nothing in use: a batch where nothing waits is not looked at, so the batches stay.
pub(crate) fn clear_tables(s: &mut StateBytes)
    ensures s_after { take tables_len s.new ≡ replicate tables_len 0 }
    ensures s_unchanged { drop machine_len s.new ≡ drop machine_len s.old }
    ensures s_after_2 { view s.new ≡ zeroed }
{
    wipe(s, BATCHES);
}
