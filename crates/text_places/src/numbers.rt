// A test as a number, for functions that answer in numbers alone.
ghost use Rattle.std.specs.Prelude.{◌≡◌};
ghost use Rattle.ground.specs.Choice.{bit};

pub fn bit_number(b: bool) -> u32
    ensures { result ≡ bit b }
{
    if b {
        return 1;
    }
    0
}
