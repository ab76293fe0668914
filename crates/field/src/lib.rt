// The field of 256 elements: bytes, whose sum is the exclusive or and whose product is reduced by the polynomial 11D.
// Every function is total. Products, inverses and powers are worked out by shifting and reducing; no contract tells how.
#![tactic(auto)]

ghost use Rattle.std.specs.Prelude.{◌≡◌, ◌*◌, ◌/◌, ◌%◌, ◌<◌};
ghost use Rattle.field.specs.Field.{◌⊕◌, ◌⊗◌, gpow, inverse_of, polynomial, generator, order, times};
ghost use Rattle.field.specs.Euclid.{Rest};

// An element. Bit i of the byte is the coefficient of x^i.
#[derive(Clone, Copy)]
pub struct Gf(pub u8);

impl Gf {
    // x^8 + x^4 + x^3 + x^2 + 1, which products are reduced by.
    pub const POLYNOMIAL: u16 = 0x11d;
    // g, whose powers are all the non-zero elements.
    pub const GENERATOR: u8 = 2;
    // How many non-zero elements there are.
    pub const ORDER: usize = 255;

    // The constant POLYNOMIAL, which is the definition's.
    pub fn polynomial() -> u16
        ensures value { result ≡ polynomial }
        ensures named { result ≡ Gf.POLYNOMIAL }
    {
        Gf::POLYNOMIAL
    }

    // The constant GENERATOR, which is the definition's.
    pub fn generator() -> u8
        ensures value { result ≡ generator }
        ensures named { result ≡ Gf.GENERATOR }
    {
        Gf::GENERATOR
    }

    // The constant ORDER, which is the definition's.
    pub fn order() -> usize
        ensures value { result ≡ order }
        ensures named { result ≡ Gf.ORDER }
    {
        Gf::ORDER
    }

    // The sum, which is the difference too.
    pub fn sum(self, o: Gf) -> Gf
        ensures { result.0 ≡ self.0 ⊕ o.0 }
    {
        Gf(self.0 ^ o.0)
    }

    // The product; with zero it is zero. For each bit of the first the second is added, and doubled for the next.
    pub fn product(self, o: Gf) -> Gf
        ensures { result.0 ≡ self.0 ⊗ o.0 }
    {
        let mut b = o.0;
        let mut sum = 0;
        for i in 0..8u32 {
            sum ^= low_times(self.0 >> i, b);
            b = double(b);
        }
        Gf(sum)
    }

    // The inverse; of zero it is zero. By Euclid's algorithm on two polynomials, the reducing one and the element, each in the high half of
    // a number, until one is 1; in the low half stands by what this element is to be multiplied to give it.
    pub fn inverse(self) -> Gf
        ensures { result.0 ≡ inverse_of self.0 }
    {
        if self.0 == 0 {
            return self;
        }
        let mut u = u32::from(Gf::POLYNOMIAL) * 65536;
        let mut v = u32::from(self.0) * 65536 + 1;
        while 131072 <= v {
            let w = rest(u, v);
            u = v;
            v = w;
        }
        Gf((v % 256) as u8)
    }

    // g to the power of n: below 8 a shift, below 128 a shift and a reduction, and else the square of the power of half as much.
    pub fn power(n: usize) -> Gf
        ensures { result.0 ≡ gpow n }
    {
        if n < 8 {
            return Gf(1 << n);
        }
        if n < 128 {
            return Gf(low_power(n));
        }
        let m = n % Gf::ORDER;
        let half = Gf(low_power(m / 2));
        let even = half.product(half);
        if m % 2 == 0 {
            return even;
        }
        Gf(double(even.0))
    }
}

// x^8, as which the bit of x^7 comes back when a byte is doubled: the polynomial without its highest term.
const REDUCTION: u8 = (Gf::POLYNOMIAL - 256) as u8;

// Twice x.
pub fn double(x: u8) -> u8
    ensures { result ≡ 2 ⊗ x }
{
    ((x % 128) * 2) ^ ((x / 128) * REDUCTION)
}

// The lowest bit of a times b.
fn low_times(a: u8, b: u8) -> u8
    ensures { result ≡ times (a % 2) b }
{
    if a % 2 == 0 {
        return 0;
    }
    b
}

// What is left of u once v is taken from it, shifted to u's highest bit, until v is the longer one.
fn rest(u: u32, v: u32) -> u32
    requires { 0 < v }
    ensures { Rest v u result }
{
    let z = v.leading_zeros();
    let mut w = u;
    while w.leading_zeros() <= z {
        w ^= v << (z - w.leading_zeros());
    }
    w
}

// g^0, g^8, .. g^56 as the bytes of a number, the first lowest. No array: the compiler would copy it to the stack, and folds took longer.
const EIGHTHS: u64 = 0x5d466a9d8f4c1d01;

// g^64, g^72, .. g^120 likewise.
const EIGHTHS_FROM_64: u64 = 0x3b810dd9fefd655f;

// g to the power of n, less what n is above a multiple of 8.
fn eighth_power(n: usize) -> u64
    requires { n < 128 }
    ensures { result ≡ gpow (n / 8 * 8) }
{
    if n < 64 {
        return (EIGHTHS >> (n / 8 * 8)) % 256;
    }
    (EIGHTHS_FROM_64 >> (n / 8 * 8 - 64)) % 256
}

// g to the power of n: an eighth power, shifted by what is left. Its bits from x^8 on say how often the polynomial goes in.
fn low_power(n: usize) -> u8
    requires { n < 128 }
    ensures { result ≡ gpow n }
{
    let v = eighth_power(n) << (n % 8);
    let h = v / 256;
    let q = h ^ (h / 16) ^ (h / 32) ^ (h / 64);
    ((v ^ q ^ (q << 2) ^ (q << 3) ^ (q << 4)) % 256) as u8
}
