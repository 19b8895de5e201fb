// A number below a limit, which its type names: where something stands in a table of N entries.
ghost use Rattle.std.specs.Prelude.{◌<◌};

#[derive(Clone, Copy)]
pub struct Index<const N: usize> {
    pub at: usize,
    ghost below: { at < N },
}
