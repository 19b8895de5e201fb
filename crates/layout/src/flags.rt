// Numbers that may be missing.
ghost use Rattle.std.specs.Prelude.{◌≡◌};
ghost use Rattle.numbers.specs.Opt.{option_of};
ghost use Rattle.layout.specs.Numbers.{option};

// A flag and the number behind it.
pub fn option(b: u8, n: u8) -> Option<u8>
    ensures { option_of result ≡ option b n }
{
    if b == 0 { None } else { Some(n) }
}
