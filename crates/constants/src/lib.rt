// The constants of stripes given by check equations: what each byte that is read counts in each byte that is made. They are the weights of
// crate `lagrange` at the points of the columns, and depend on the numbers of the shape alone.
#![tactic(auto)]

ghost use Rattle.std.specs.Prelude.{◌≡◌, ◌+◌, ◌-◌, ◌*◌, ◌<◌, ◌≤◌, ◌%◌, length};
ghost use Rattle.field.specs.Field.{gpow};
ghost use Rattle.field.specs.Bytes.{tabulate};
ghost use Rattle.points.specs.Points.{points};
ghost use Rattle.points.specs.Mending.{entries};
ghost use Rattle.points.specs.Folding.{fold_points};
ghost use Rattle.constants.specs.Constants.{encodes, folds, mends};

use field::{Gf, double};
use lagrange::weights;

// The most points, which are all bytes but 0.
const POINTS: usize = 255;
// The most columns that are made.
const MADE: usize = 16;
// The most constants: of as many columns made from all others.
pub const MOST_CONSTANTS: usize = MADE * (POINTS - MADE);

// ---- points

// 1, g, g^2 and so on.
fn ascending(out: &mut [u8])
    ensures { out.new ≡ tabulate (length out.old) gpow }
{
    let mut x = 1u8;
    for place in out.iter_mut() {
        *place = x;
        x = double(x);
    }
}

// g^e, g^(e-1), g^(e-2) and so on: from the last to the first, each twice the one after it.
fn descending(out: &mut [u8], e: usize)
    requires { (length out.old ≤ e + 1) × (e < 131072) }
    ensures { out.new ≡ tabulate (length out.old) (λ i. gpow (e - i)) }
{
    let n = out.len();
    let last = Gf::power(e + 1 - n);
    let mut x = last.0;
    for i in (0..n).rev() {
        out[i] = x;
        x = double(x);
    }
}

// The points of k data columns and, for the rest, of parity columns.
fn fill_points(out: &mut [u8], k: usize)
    requires { (k ≤ length out.old) × (length out.old ≤ 255) }
    ensures { out.new ≡ points k (length out.old - k) }
{
    let n = out.len();
    ascending(&mut out[0..k]);
    descending(&mut out[k..n], 254);
}

// The points of r parity columns of each of n stripes of k data columns, as columns of the wide stripe.
fn fill_fold_points(out: &mut [u8], k: usize, r: usize, n: usize)
    requires { (length out.old ≡ n * r) × ((k ≤ 255) × ((r ≤ 16) × ((n ≤ 255) × (n * r ≤ 255)))) }
    ensures { out.new ≡ fold_points k r n }
{
    for i in 0..n {
        let a = i * r;
        descending(&mut out[a..a + r], i * k + 254);
    }
}

// Of the points those at these positions; 0 where there is none.
fn fill_chosen(out: &mut [u8], points: &[u8], at: &[u8])
    requires { length out.old ≡ length at.now }
    ensures { out.new ≡ entries points.now at.now }
{
    for v in 0..at.len() {
        out[v] = points.get(usize::from(at[v])).copied().unwrap_or(0);
    }
}

// ---- columns

// 0, 1, 2 and so on: the numbers of columns in order.
pub fn in_order(out: &mut [u8])
    ensures { out.new ≡ tabulate (length out.old) (λ i. i % 256) }
{
    for i in 0..out.len() {
        out[i] = (i % 256) as u8;
    }
}

// ---- constants

// What each of k data bytes counts in each of r parity bytes. Where the numbers do not fit, what is there stays.
pub fn encoding(k: usize, r: usize, out: &mut [u8])
    ensures { out.new ≡ encodes k r out.old }
{
    if POINTS < k {
        return;
    }
    if POINTS - k < r {
        return;
    }
    if MADE < r {
        return;
    }
    let mut new = [0u8; MADE];
    descending(&mut new[0..r], 254);
    let mut old = [0u8; POINTS];
    ascending(&mut old[0..k]);
    weights(&new[0..r], &old[0..k], out);
}

// What each byte of the r parity columns of n stripes of k data columns counts in each of r parity bytes of the wide stripe. Where the
// numbers do not fit, what is there stays.
pub fn folding(k: usize, r: usize, n: usize, out: &mut [u8])
    ensures { out.new ≡ folds k r n out.old }
{
    if POINTS < k {
        return;
    }
    if MADE < r {
        return;
    }
    if POINTS < n {
        return;
    }
    if POINTS < n * r {
        return;
    }
    let m = n * r;
    let mut new = [0u8; MADE];
    descending(&mut new[0..r], 254);
    let mut old = [0u8; POINTS];
    fill_fold_points(&mut old[0..m], k, r, n);
    weights(&new[0..r], &old[0..m], out);
}

// What each byte at the second positions of a stripe of k data columns and r parity columns counts in each byte at the first, where every
// check equation holds. Where the numbers do not fit, what is there stays.
pub fn mending(k: usize, r: usize, to: &[u8], from: &[u8], out: &mut [u8])
    ensures { out.new ≡ mends k r to.now from.now out.old }
{
    if POINTS < k {
        return;
    }
    if POINTS - k < r {
        return;
    }
    if MADE < to.len() {
        return;
    }
    if POINTS < from.len() {
        return;
    }
    let n = k + r;
    let e = to.len();
    let m = from.len();
    let mut points = [0u8; POINTS];
    fill_points(&mut points[0..n], k);
    let mut new = [0u8; MADE];
    fill_chosen(&mut new[0..e], &points[0..n], to);
    let mut old = [0u8; POINTS];
    fill_chosen(&mut old[0..m], &points[0..n], from);
    weights(&new[0..e], &old[0..m], out);
}
