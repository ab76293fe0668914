// The check of stripes given by check equations. Their parity may be long, so it is made window by window, and what is kept is the least
// index at which the parity lent was found to differ.
ghost use Rattle.std.specs.Prelude.{◌≡◌, true, List, ◌⊎◌, ℕ, ◌+◌, ◌*◌, ◌<◌, ◌≤◌, length};
ghost use Rattle.field.specs.Bytes.{tabulate};
ghost use Rattle.stripe.specs.Stripe.{by_points, parity};
ghost use Rattle.constants.specs.Constants.{encoding_of};
ghost use Rattle.checking.specs.Compare.{first_difference};
ghost use Rattle.checking.specs.Windows.{Below, Window};

use crate::compare::difference;
use crate::lent::Lent;
use constants::{MOST_CONSTANTS, encoding, in_order};
use matrix::apply;

// The bytes of a window, of all rows together.
const WINDOW: usize = 2048;

// The first index at which the parity lent differs from the parity of the data, or its length.
#[inline(never)]
pub(crate) fn first_by_points(lent: &Lent) -> usize
    requires { by_points lent.now.shape ≡ true }
    ensures { result ≡ first_difference lent.now.parity.now (parity lent.now.shape lent.now.«data».now) }
{
    let n = lent.shape.r * lent.shape.k;
    let mut w = [0u8; MOST_CONSTANTS];
    first_by(lent, &mut w[0..n])
}

// The same, with room for the constants.
fn first_by(lent: &Lent, w: &mut [u8]) -> usize
    requires { (by_points lent.now.shape ≡ true) × (length w.old ≡ lent.now.shape.r * lent.now.shape.k) }
    ensures { result ≡ first_difference lent.now.parity.now (parity lent.now.shape lent.now.«data».now) }
{
    let k = lent.shape.k;
    encoding(k, lent.shape.r, w);
    let mut at = [0u8; 255];
    in_order(&mut at[0..k]);
    all_windows(lent, &at[0..k], w)
}

// As many places as a window holds of r rows, in multiples of 64.
fn step(r: usize) -> usize
    requires { (1 ≤ r) × (r ≤ 16) }
    ensures { (1 ≤ result) × (r * result ≤ 2048) }
{
    WINDOW / r / 64 * 64
}

// The same with the constants, window by window.
fn all_windows(lent: &Lent, at: &[u8], w: &[u8]) -> usize
    requires { (by_points lent.now.shape ≡ true)
        × ((at.now ≡ tabulate lent.now.shape.k (λ i. i)) × (w.now ≡ encoding_of lent.now.shape.k lent.now.shape.r)) }
    ensures { result ≡ first_difference lent.now.parity.now (parity lent.now.shape lent.now.«data».now) }
{
    let r = lent.shape.r;
    let l = lent.shape.l;
    let most = step(r);
    let mut made = [0u8; WINDOW];
    let mut b = r * l;
    for i in 0..l.div_ceil(most) {
        let p = i * most;
        let n = most.min(l - p);
        let m = r * n;
        b = window(lent, at, w, p, n, b, &mut made[0..m]);
    }
    b
}

// Of the index kept and the first difference in the n places from p on, the lesser.
fn window(lent: &Lent, at: &[u8], w: &[u8], p: usize, n: usize, b: usize, made: &mut [u8]) -> usize
    requires { (by_points lent.now.shape ≡ true) × ((at.now ≡ tabulate lent.now.shape.k (λ i. i))
        × ((w.now ≡ encoding_of lent.now.shape.k lent.now.shape.r)
        × ((1 ≤ n) × ((p + n ≤ lent.now.shape.l) × (length made.old ≡ lent.now.shape.r * n))))) }
    ensures { let s = lent.now.shape in
        let ps = lent.now.parity.now in
        let made = parity s lent.now.«data».now in
        Below s.l (s.r * s.l) p ps made b → Below s.l (s.r * s.l) (p + n) ps made result }
{
    let r = lent.shape.r;
    let l = lent.shape.l;
    apply(r, at, w, lent.data, p, l, n, made);
    all_rows(lent.parity, made, r, l, p, n, b)
}

// The same of parity that was made, row by row.
fn all_rows(lent: &[u8], made: &[u8], r: usize, l: usize, p: usize, n: usize, b: usize) -> usize
    requires { (length lent.now ≡ r * l) × ((length made.now ≡ r * n) × ((p + n ≤ l) × (r * l ≤ 65536))) }
    ensures { (ys : List ℕ) → Window r l p n made.now ys → Below l (r * l) p lent.now ys b
        → Below l (r * l) (p + n) lent.now ys result }
{
    let mut c = b;
    for i in 0..r {
        let a = i * l + p;
        let e = a + n;
        let f = i * n;
        let g = f + n;
        let d = difference(&lent[a..e], &made[f..g]);
        c = earlier(c, a, d, n);
    }
    c
}

// The index a + d if d is below n, and if it is less than b; else b.
fn earlier(b: usize, a: usize, d: usize, n: usize) -> usize
    requires { a + n ≤ 65536 }
    ensures { ((result ≡ b) × ((n ≤ d) ⊎ (b ≤ a + d))) ⊎ ((result ≡ a + d) × ((d < n) × (a + d < b))) }
{
    if d < n { b.min(a + d) } else { b }
}
