// The weights of stripes in a fold: a slice times a power of g, and another added. Weights up to g^8 are made of shifts.
#![tactic(auto)]

ghost use Rattle.std.specs.Prelude.{◌≡◌, map, ℕ, ◌≤◌};
ghost use Rattle.field.specs.Field.{◌⊕◌, ◌⊗◌, gpow};
ghost use Rattle.lanes.specs.Lanes.{onto};

use field::Gf;
use lanes::{add, shorter};
use products::scale;
use steps::{double_add, quadruple_add};

// The first times g^e, and the second, at each place. Up to g^8 no product is made.
pub fn weighted(acc: &mut [u8], e: usize, d: &[u8])
    ensures { acc.new ≡ onto (λ (x y : ℕ). gpow e ⊗ x ⊕ y) acc.old d.now }
{
    if e <= 4 {
        shifted(acc, e, d);
        return;
    }
    if e <= 8 && acc.len() <= d.len() {
        sixteenfold_all(acc);
        shifted(acc, e - 4, d);
        return;
    }
    scale(acc, Gf::power(e).0, d);
}

// The first times g^e, for e up to 4, and the second, at each place.
fn shifted(acc: &mut [u8], e: usize, d: &[u8])
    requires { e ≤ 4 }
    ensures { acc.new ≡ onto (λ (x y : ℕ). gpow e ⊗ x ⊕ y) acc.old d.now }
{
    match e {
        0 => add(acc, d),
        1 => double_add(acc, d),
        2 => quadruple_add(acc, d),
        3 => eightfold_add(acc, d),
        _ => sixteenfold_add(acc, d),
    }
}

// At each place eight times the first and the second. A loop of its own: with the step as a closure the contract is longer than this loop.
fn eightfold_add(a: &mut [u8], d: &[u8])
    ensures { a.new ≡ onto (λ (x y : ℕ). 8 ⊗ x ⊕ y) a.old d.now }
{
    for q in 0..shorter(a.len(), d.len()) {
        a[q] = eightfold(a[q]) ^ d[q];
    }
}

// At each place sixteen times the first and the second.
fn sixteenfold_add(a: &mut [u8], d: &[u8])
    ensures { a.new ≡ onto (λ (x y : ℕ). 16 ⊗ x ⊕ y) a.old d.now }
{
    for q in 0..shorter(a.len(), d.len()) {
        a[q] = sixteenfold(a[q]) ^ d[q];
    }
}

// Sixteen times each.
fn sixteenfold_all(a: &mut [u8])
    ensures { a.new ≡ map (λ (x : ℕ). 16 ⊗ x) a.old }
{
    for x in a {
        *x = sixteenfold(*x);
    }
}

// Eight times x: the three highest bits come back times x^4 + x^3 + x^2 + 1, and none of them wraps.
fn eightfold(x: u8) -> u8
    ensures { result ≡ 8 ⊗ x }
{
    let t = x / 32;
    (((x ^ t) % 32) * 8) ^ t ^ (t * 4) ^ (t * 16)
}

// Sixteen times x: the four highest bits come back times x^4 + x^3 + x^2 + 1, and none of them wraps.
fn sixteenfold(x: u8) -> u8
    ensures { result ≡ 16 ⊗ x }
{
    let t = x / 16;
    (((x ^ t) % 16) * 16) ^ t ^ (t * 4) ^ (t * 8)
}
