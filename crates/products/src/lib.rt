// Loops over byte slices that multiply by any byte, eight masks to a product. A loop for each: `lanes` says why.
#![tactic(auto)]

pub mod within;

ghost use Rattle.std.specs.Prelude.{◌≡◌, map, ℕ, slice_index};
ghost use Rattle.field.specs.Field.{◌⊕◌, ◌⊗◌};
ghost use Rattle.lanes.specs.Lanes.{onto};
ghost use Rattle.products.specs.Products.{Doubling};

use field::double;
use lanes::shorter;
use steps::mask;

// At each place the first and c times the second.
pub(crate) fn scale_add(a: &mut [u8], c: u8, d: &[u8])
    ensures { a.new ≡ onto (λ (x y : ℕ). x ⊕ c ⊗ y) a.old d.now }
{
    let m = multiples_of(c);
    for q in 0..shorter(a.len(), d.len()) {
        a[q] ^= product(m, d[q]);
    }
}

// At each place c times the first, and the second.
pub fn scale(a: &mut [u8], c: u8, d: &[u8])
    ensures { a.new ≡ onto (λ (x y : ℕ). c ⊗ x ⊕ y) a.old d.now }
{
    let m = multiples_of(c);
    for q in 0..shorter(a.len(), d.len()) {
        a[q] = product(m, a[q]) ^ d[q];
    }
}

// c times each.
pub fn scale_all(a: &mut [u8], c: u8)
    ensures { a.new ≡ map (λ (x : ℕ). c ⊗ x) a.old }
{
    let m = multiples_of(c);
    for x in a {
        *x = product(m, *x);
    }
}

// At each place the product of the two.
pub fn multiply(a: &mut [u8], d: &[u8])
    ensures { a.new ≡ onto (λ (x y : ℕ). x ⊗ y) a.old d.now }
{
    for q in 0..shorter(a.len(), d.len()) {
        a[q] = product(multiples_of(d[q]), a[q]);
    }
}

// c times each power of two, by which a product is eight masks.
fn multiples_of(c: u8) -> [u8; 8]
    ensures { (slice_index result 0 ≡ c) × Doubling result }
{
    let mut m = [c; 8];
    for i in 1..8 {
        m[i] = double(m[i - 1]);
    }
    m
}

// The first of the multiples times x.
fn product(m: [u8; 8], x: u8) -> u8
    requires { Doubling m }
    ensures { result ≡ slice_index m 0 ⊗ x }
{
    let mut sum = 0;
    for i in 0..8 {
        sum ^= mask(x, 1 << i, m[i]);
    }
    sum
}
