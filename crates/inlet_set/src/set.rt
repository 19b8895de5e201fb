// Sets of a pipeline's inlets, which are numbered below 23.
ghost use Rattle.std.specs.Prelude.{◌≡◌, [], ◌≤◌, min, length};
ghost use Rattle.rules.specs.Table.{has};
ghost use Rattle.rules.specs.Pipelines.{all_inlets};
ghost use Rattle.inlet_set.specs.InletSet.{set_of, last_at};
ghost use Rattle.numbers.specs.Newest.{newest};
ghost use Rattle.numbers.specs.Opt.{option_of};

// The first `len` of the numbers count, at most 23, in the sequence of their insertion.
// kept: an array and how many of it count, since there is no heap.
#[derive(Clone, Copy)]
pub struct InletSet {
    pub indices: [u8; 23],
    pub len: usize,
}

// Where the newest that is this number stands, of the first n.
pub(crate) fn find(indices: [u8; 23], n: usize, inlet: u8) -> Option<usize>
    requires { n ≤ 23 }
    ensures { option_of result ≡ last_at inlet indices n }
{
    for k in (0..n).rev() {
        if indices[k] == inlet {
            return Some(k);
        }
    }
    None
}

// The numbers below n, for at most 23.
fn rising(n: usize) -> [u8; 23]
    requires { n ≤ 23 }
    ensures { newest result n ≡ all_inlets n }
{
    let mut r = [0; 23];
    for i in 0..n {
        r[i] = i as u8;
    }
    r
}

impl InletSet {
    #[tactic(auto, unfolding(numbers::specs::Newest::newest))]
    pub fn new() -> InletSet
        ensures { set_of result ≡ [] }
    {
        InletSet {
            indices: [0; 23],
            len: 0,
        }
    }

    // All numbers below n, inserted by rising number; those below 23 where n is more.
    pub fn all(n: usize) -> InletSet
        ensures { set_of result ≡ all_inlets (min n 23) }
    {
        let len = n.min(23);
        InletSet {
            indices: rising(len),
            len,
        }
    }

    pub fn len(self) -> usize
        ensures value { result ≡ length (set_of self) }
        ensures upper_bound { result ≤ 23 }
    {
        self.len.min(23)
    }

    pub fn has(self, inlet: u8) -> bool
        ensures { result ≡ has inlet (set_of self) }
    {
        find(self.indices, self.len(), inlet).is_some()
    }
}
