// Products of single elements. Most of them are by 1, which need not be worked out.
ghost use Rattle.std.specs.Prelude.{◌≡◌};
ghost use Rattle.field.specs.Field.{◌⊗◌};

use field::Gf;

// x times y.
pub(crate) fn product(x: u8, y: u8) -> u8
    ensures { result ≡ x ⊗ y }
{
    if x == 1 {
        return y;
    }
    Gf(x).product(Gf(y)).0
}
