// A stack of small numbers: how many, then the oldest first. A count past the table reads as one number that no check accepts.
// kept: the count beside the numbers, since docs/STATE.md fixes which bytes they are.
// kept: `Room` in each contract. A struct around the lent bytes would be needed twice, shared and mutable, and be made at each call from that fact.
ghost use Rattle.std.specs.Prelude.{◌≡◌, ◌-◌, ◌<◌, ltb, length, drop};
ghost use Rattle.std.proofs.Math.ListN.{get_elem?};
ghost use Rattle.rules.specs.Pipelines.{without};
ghost use Rattle.numbers.specs.Opt.{option_of};
ghost use Rattle.layout.specs.Numbers.{byte, stack};
ghost use Rattle.layout.specs.Stack.{pushed, Room};

// A count past the table becomes the number that it reads as.
fn settle(r: &mut [u8])
    requires { Room r.old }
    ensures r_unchanged { stack r.new ≡ stack r.old }
    ensures r_in_bounds { byte r.new 0 < length r.new }
    ensures r_len_unchanged { length r.new ≡ length r.old }
{
    if r.len() <= usize::from(r[0]) {
        r[0] = 1;
        r[1] = 255;
    }
}

// How many.
pub fn len(r: &[u8]) -> usize
    requires { Room r.now }
    ensures { result ≡ length (stack r.now) }
{
    let n = usize::from(r[0]);
    if r.len() <= n { 1 } else { n }
}

// The number on top.
pub fn newest(r: &[u8]) -> Option<u8>
    requires { Room r.now }
    ensures { option_of result ≡ get_elem? (stack r.now) 0 }
{
    let n = usize::from(r[0]);
    if n == 0 {
        None
    } else if r.len() <= n {
        Some(255)
    } else {
        Some(r[n])
    }
}

// A number on top; false where the table is full.
// kept: a bool, which is the test itself; `Result<(), Full>` would say no more.
pub fn push(r: &mut [u8], x: u8) -> bool
    requires { Room r.old }
    ensures value { result ≡ ltb (length (stack r.old)) (length r.old - 1) }
    ensures r_after { stack r.new ≡ pushed x (length r.old - 1) (stack r.old) }
{
    settle(r);
    let n = usize::from(r[0]) + 1;
    if n < r.len() {
        r[n] = x;
        r[0] = n as u8;
        return true;
    }
    false
}

// Without the newest.
pub fn pop(r: &mut [u8])
    requires { Room r.old }
    ensures { stack r.new ≡ drop 1 (stack r.old) }
{
    settle(r);
    if 0 < r[0] {
        r[0] -= 1;
    }
}

// Without a number, wherever it stands.
pub fn remove(r: &mut [u8], k: u8)
    requires { Room r.old }
    ensures { stack r.new ≡ without k (stack r.old) }
{
    settle(r);
    let mut j = 0;
    for i in 0..usize::from(r[0]) {
        let x = r[i + 1];
        r[j + 1] = x;
        j += usize::from(x != k);
    }
    r[0] = j as u8;
}
