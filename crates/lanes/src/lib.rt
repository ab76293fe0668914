// Loops over byte slices, a field element at each place. Of two slices each loop runs to the end of the shorter, and the
// rest stays. The forms are those that the compiler turns into vector code. Steps of rows stand in `steps`, products in `products`
// and `weights`, and a loop that serves one crate alone stands there.
// A loop for each step: one for all would take a closure, whose `requires` no public function may have, or a trait, longer than the loops.
#![tactic(auto)]

ghost use Rattle.std.specs.Prelude.{◌≡◌, ◌⊎◌, ℕ, ◌≤◌};
ghost use Rattle.field.specs.Field.{◌⊕◌};
ghost use Rattle.lanes.specs.Lanes.{onto, all_zero};

// At each place the sum of the two.
pub fn add(a: &mut [u8], d: &[u8])
    ensures { a.new ≡ onto (λ (x y : ℕ). x ⊕ y) a.old d.now }
{
    for q in 0..shorter(a.len(), d.len()) {
        a[q] ^= d[q];
    }
}

// At each place the second.
// A loop: `copy_from_slice` would call memmove, and C is promised that nothing but memcpy and memset is called.
pub fn copy(a: &mut [u8], d: &[u8])
    ensures { a.new ≡ onto (λ (x y : ℕ). y) a.old d.now }
{
    for q in 0..shorter(a.len(), d.len()) {
        a[q] = d[q];
    }
}

// Whether every byte is zero.
pub fn all_zero(a: &[u8]) -> bool
    ensures { result ≡ all_zero a.now }
{
    a.iter().fold(0, |z, x| z | x) == 0
}

// The lesser of two lengths.
pub fn shorter(m: usize, n: usize) -> usize
    ensures { (result ≤ m) × ((result ≤ n) × ((m ≤ result) ⊎ (n ≤ result))) }
{
    m.min(n)
}
