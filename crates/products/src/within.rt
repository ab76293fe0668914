// Bytes of one slice taken to others of it, by way of a block: so the compiler need not ask whether the two overlap.
ghost use Rattle.std.specs.Prelude.{◌≡◌, true, ℕ, ◌≤◌, ◌<◌, ◌*◌, ◌/◌, length};
ghost use Rattle.field.specs.Field.{◌⊕◌, ◌⊗◌};
ghost use Rattle.products.specs.Within.{disjoint, within, Halved};

use crate::scale_add;
use lanes::{add, copy};
use steps::double_add;

// To the n bytes from `to` on c times those from `from` on; nothing where they are not all there, or not apart.
pub fn mix(a: &mut [u8], to: usize, from: usize, n: usize, c: u8)
    ensures { a.new ≡ within (λ (x y : ℕ). x ⊕ c ⊗ y) to from n a.old }
{
    if !are_disjoint(to, from, n, a.len()) {
        return;
    }
    let q = mix_blocks::<64>(a, to, from, n, c);
    let r = q + mix_blocks::<16>(a, to + q, from + q, n - q, c);
    if r < n {
        mix_part(a, to + r, from + r, n - r, c);
    }
}

// The same of the whole blocks of N bytes, and how many bytes they are. Blocks of 16 too: runs of prepared stripes are often short.
fn mix_blocks<const N: usize>(a: &mut [u8], to: usize, from: usize, n: usize, c: u8) -> usize
    requires { (disjoint to from n (length a.old) ≡ true) × ((0 < N) × (N ≤ 64)) }
    ensures done { result ≡ n / N * N }
    ensures bytes { a.new ≡ within (λ (x y : ℕ). x ⊕ c ⊗ y) to from result a.old }
{
    for b in 0..n / N {
        mix_part(a, to + b * N, from + b * N, N, c);
    }
    n / N * N
}

// The same of at most 64 bytes, which are there and apart.
fn mix_part(a: &mut [u8], to: usize, from: usize, n: usize, c: u8)
    requires { (disjoint to from n (length a.old) ≡ true) × (n ≤ 64) }
    ensures { a.new ≡ within (λ (x y : ℕ). x ⊕ c ⊗ y) to from n a.old }
{
    let mut t = [0u8; 64];
    let e = from + n;
    copy(&mut t, &a[from..e]);
    let f = to + n;
    let k = by_doubling(&mut t, c);
    if k == 1 {
        add(&mut a[to..f], &t);
        return;
    }
    scale_add(&mut a[to..f], k, &t);
}

// A factor for the bytes, which are doubled as often as it is halved: 1 in the place of a power of two, since up to 128 that costs less
// than masks. Weights are powers of g, low ones where columns are few.
fn by_doubling(t: &mut [u8; 64], c: u8) -> u8
    ensures { Halved c result t.old t.new }
{
    if !c.is_power_of_two() {
        return c;
    }
    let zero = [0u8; 64];
    let mut k = c;
    while k % 2 == 0 {
        double_add(t, &zero);
        k /= 2;
    }
    k
}

// Whether the n places from `to` on and those from `from` on are all of len, and apart.
fn are_disjoint(to: usize, from: usize, n: usize, len: usize) -> bool
    ensures { result ≡ disjoint to from n len }
{
    if len < n {
        return false;
    }
    let last = len - n;
    if last < to {
        return false;
    }
    if last < from {
        return false;
    }
    if to + n <= from {
        return true;
    }
    from + n <= to
}
