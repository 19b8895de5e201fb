// The stack of nodes that wait for their parent.
ghost use Rattle.std.specs.Prelude.{◌≡◌, ◌∷◌, ◌+◌, ◌<◌, length};
ghost use Rattle.numbers.specs.Newest.{newest};

// The nodes that wait for their parent, the newest last: the first `top` of `free`, or no stack where a node did not fit.
// Distinct: surely no two leaves name one segment.
#[derive(Clone, Copy)]
pub struct Stack {
    pub free: [u8; 24],
    pub top: Option<usize>,
    pub distinct: bool,
}

// Node i comes on top of the first `top`: how many there are with it.
pub(crate) fn push(free: &mut [u8; 24], top: usize, i: usize) -> usize
    requires top_bound { (top < 24) × (i < 24) }
    ensures free_after { newest free.new result ≡ i ∷ newest free.old top }
    ensures value { result ≡ top + 1 }
{
    free[top] = i as u8;
    top + 1
}
