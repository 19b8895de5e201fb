// Numbers of four bytes, low byte first.
ghost use Rattle.std.specs.Prelude.{◌≡◌, ◌+◌, ◌*◌, ◌≤◌, length, take, drop};
ghost use Rattle.layout.specs.Numbers.{word};
ghost use Rattle.layout.specs.Records.{table};

// The number in the four bytes from a place on.
pub fn get_word(r: &[u8], at: usize) -> u32
    requires { at + 4 ≤ length r.now }
    ensures { result ≡ word (take 4 (drop at r.now)) }
{
    u32::from_le_bytes([r[at], r[at + 1], r[at + 2], r[at + 3]])
}

// As many numbers as there is room for.
pub fn get_words(r: &[u8], to: &mut [u32])
    requires { length r.now ≡ length to.old * 4 }
    ensures { to.new ≡ table word 4 (length to.old) r.now }
{
    for i in 0..to.len() {
        to[i] = get_word(r, i * 4);
    }
}

// All of some numbers.
pub fn put_words(r: &mut [u8], from: &[u32])
    requires { length r.old ≡ length from.now * 4 }
    ensures { table word 4 (length from.now) r.new ≡ from.now }
{
    for i in 0..from.len() {
        let a = i * 4;
        r[a..a + 4].copy_from_slice(&from[i].to_le_bytes());
    }
}
