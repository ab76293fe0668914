// The steps of rows 1 and 2: loops over byte slices that multiply by 2, 4 or 16 and add, made of shifts. A loop for each: `lanes` says why.
#![tactic(auto)]

ghost use Rattle.std.specs.Prelude.{◌≡◌, cond, ℕ, ◌-◌, ◌*◌, ◌<◌, eqb};
ghost use Rattle.std.specs.Int.Bits.{bit_and};
ghost use Rattle.field.specs.Field.{◌⊕◌, ◌⊗◌, polynomial};
ghost use Rattle.lanes.specs.Lanes.{onto, both};

use field::double;
use lanes::shorter;

// At each place twice the first and the second.
pub fn double_add(a: &mut [u8], d: &[u8])
    ensures { a.new ≡ onto (λ (x y : ℕ). 2 ⊗ x ⊕ y) a.old d.now }
{
    for q in 0..shorter(a.len(), d.len()) {
        a[q] = double(a[q]) ^ d[q];
    }
}

// At each place four times the first and the second.
pub fn quadruple_add(a: &mut [u8], d: &[u8])
    ensures { a.new ≡ onto (λ (x y : ℕ). 4 ⊗ x ⊕ y) a.old d.now }
{
    for q in 0..shorter(a.len(), d.len()) {
        a[q] = double(double(a[q])) ^ d[q];
    }
}

// At each place sixteen times the first, four times the second, and the third: two steps of row 2 at once.
pub fn quadruple_add_two(a: &mut [u8], d: &[u8], e: &[u8])
    ensures { a.new
        ≡ onto (λ (x w : ℕ). 16 ⊗ x ⊕ w) a.old (both (λ (y z : ℕ). 4 ⊗ y ⊕ z) d.now e.now) }
{
    let n = shorter(d.len(), e.len());
    for q in 0..shorter(a.len(), n) {
        a[q] = sixteen_and_four(a[q], d[q]) ^ e[q];
    }
}

// Sixteen times x and four times y: the highest bits of both come back together times x^4 + x^3 + x^2 + 1.
fn sixteen_and_four(x: u8, y: u8) -> u8
    ensures { result ≡ 16 ⊗ x ⊕ 4 ⊗ y }
{
    let t = (x / 16) ^ (y / 64);
    let v = carried(t);
    let w = ((y % 64) * 4) ^ (v * 4);
    ((x % 16) * 16) ^ w ^ t
}

// x^2 + x + 1 times t: four times that and t are t times x^4 + x^3 + x^2 + 1.
fn carried(t: u8) -> u8
    requires { t < 16 }
    ensures { (result < 64) × (result * 4 ⊕ t ≡ (polynomial - 256) ⊗ t) }
{
    t ^ (t * 2) ^ (t * 4)
}

// t where x has a bit of b, else 0.
pub fn mask(x: u8, b: u8, t: u8) -> u8
    ensures { result ≡ cond (eqb (bit_and x b) 0) 0 t }
{
    if x & b == 0 { 0 } else { t }
}
