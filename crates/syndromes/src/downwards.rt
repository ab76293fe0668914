// The steps of rows 1 and 2 downwards: loops over byte slices that take a half or a quarter of a sum, made of shifts.
// Each has its one line of loop: as one function of a closure it would be longer, by the closure's law in the clauses.
ghost use Rattle.std.specs.Prelude.{◌≡◌, ℕ, ◌/◌};
ghost use Rattle.field.specs.Field.{◌⊕◌, ◌⊗◌, polynomial};
ghost use Rattle.lanes.specs.Lanes.{onto};

use field::Gf;
use lanes::shorter;
use steps::mask;

// Half of 1: the polynomial is 0, so that 1 is the polynomial without its constant term, and half of that is a shift.
const HALF: u8 = (Gf::POLYNOMIAL / 2) as u8;

// At each place half the sum of the two.
pub(crate) fn halve_add(a: &mut [u8], d: &[u8])
    ensures { a.new ≡ onto (λ (x y : ℕ). (polynomial / 2) ⊗ (x ⊕ y)) a.old d.now }
{
    let n = shorter(a.len(), d.len());
    for q in 0..n {
        a[q] = halve(a[q] ^ d[q]);
    }
}

// At each place a quarter of the sum of the two.
pub(crate) fn quarter_add(a: &mut [u8], d: &[u8])
    ensures { a.new ≡ onto (λ (x y : ℕ). (polynomial / 4) ⊗ (x ⊕ y)) a.old d.now }
{
    let n = shorter(a.len(), d.len());
    for q in 0..n {
        a[q] = halve(halve(a[q] ^ d[q]));
    }
}

// Half of x: the lowest bit comes back as half of 1.
fn halve(x: u8) -> u8
    ensures { result ≡ (polynomial / 2) ⊗ x }
{
    (x / 2) ^ mask(x, 1, HALF)
}
