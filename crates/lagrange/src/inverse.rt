// The inverse by products and sums alone, without a test: so the compiler takes sixteen at once.
ghost use Rattle.std.specs.Prelude.{◌≡◌};
ghost use Rattle.field.specs.Field.{power, inverse_of};
ghost use Rattle.lagrange.specs.Powers.{image_of};

use field::Gf;
use steps::mask;

// What a map makes of 1, 2, 4 and so on; eight fields and no array, since `image_of` names each.
#[derive(Clone, Copy)]
struct Images {
    t0: u8,
    t1: u8,
    t2: u8,
    t3: u8,
    t4: u8,
    t5: u8,
    t6: u8,
    t7: u8,
}

// The sum of what is made of the bits of x.
fn image(t: Images, x: u8) -> u8
    ensures { result ≡ image_of t x }
{
    let low = mask(x, 1, t.t0) ^ mask(x, 2, t.t1) ^ mask(x, 4, t.t2) ^ mask(x, 8, t.t3);
    low ^ mask(x, 16, t.t4) ^ mask(x, 32, t.t5) ^ mask(x, 64, t.t6) ^ mask(x, 128, t.t7)
}

// x^2. The square of a sum is the sum of the squares.
const SQUARES: Images = Images {
    t0: 0x01,
    t1: 0x04,
    t2: 0x10,
    t3: 0x40,
    t4: 0x1d,
    t5: 0x74,
    t6: 0xcd,
    t7: 0x13,
};

// x^4.
const FOURTHS: Images = Images {
    t0: 0x01,
    t1: 0x10,
    t2: 0x1d,
    t3: 0xcd,
    t4: 0x4c,
    t5: 0xb4,
    t6: 0x8f,
    t7: 0x18,
};

// x^16.
const SIXTEENTHS: Images = Images {
    t0: 0x01,
    t1: 0x4c,
    t2: 0x9d,
    t3: 0x46,
    t4: 0x5f,
    t5: 0xfd,
    t6: 0xd9,
    t7: 0x81,
};

// The inverse, which is x^254; of zero it is zero.
pub(crate) fn inverse(x: u8) -> u8
    ensures { result ≡ inverse_of x }
{
    let x2 = Gf(image(SQUARES, x));
    let x3 = x2.product(Gf(x));
    let x12 = Gf(image(FOURTHS, x3.0));
    let x14 = x12.product(x2);
    let x15 = x12.product(x3);
    let x240 = Gf(image(SIXTEENTHS, x15.0));
    let x254 = x240.product(x14);
    x254.0
}
