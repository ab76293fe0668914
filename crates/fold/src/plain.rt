// Many stripes by rows, kind A, a wide row at a time: row j is made of the parity columns j of all stripes. They start at `from`, each
// `stride` bytes after the one before, and their weights are 1, g^e, g^2e and so on.
ghost use Rattle.std.specs.Prelude.{◌≡◌, ◌*◌, ◌≤◌, length};
ghost use Rattle.field.specs.Field.{gpow};
ghost use Rattle.field.specs.Bytes.{tabulate};
ghost use Rattle.fold.specs.Fold.{fold_of};
ghost use Rattle.fold.specs.Shares.{ReadsPlain, InColumns, columns_row};

use crate::shares::take_bytes;
use constants::in_order;
use field::Gf;
use matrix::apply;
use stripe::Shape;

// From how many bytes on a row is made from all columns at once: as many as `apply` wants to form one row without sums of groups.
const LONG: usize = 256;

// The exponent of the last row, which has the highest.
pub(crate) fn last_exponent(s: Shape, f: usize) -> usize
    requires { (1 ≤ f) × ((f ≤ 16) × (s.k ≤ 255)) }
{
    (f - 1) * s.k
}

// Whether a row of n columns is sooner made from all of them at once than by a product for each, which weights beyond g^8 take.
pub(crate) fn beats_products(e: usize, n: usize, count: usize) -> bool {
    8 < e && 6 <= n && LONG <= count
}

// Whether it is sooner made so than by two steps of shifts for each, which weights beyond g^4 take.
pub(crate) fn beats_shifts(e: usize, n: usize, count: usize) -> bool {
    4 < e && 12 <= n && LONG <= count
}

// The weights.
fn fill_weights(w: &mut [u8], e: usize)
    requires { (length w.old ≤ 255) × (e ≤ 510) }
    ensures { w.new ≡ tabulate (length w.old) (λ i. gpow (i * e)) }
{
    for i in 0..w.len() {
        let x = Gf::power(i * e % Gf::ORDER);
        w[i] = x.0;
    }
}

// The row, from all columns at once.
fn weigh_columns(row: &mut [u8], e: usize, n: usize, d: &[u8], from: usize, stride: usize)
    requires { (e ≤ 510) × InColumns (length d.now) from stride n (length row.old) }
    ensures { row.new ≡ columns_row e d.now from stride n (length row.old) }
{
    let mut at = [0u8; 255];
    in_order(&mut at[0..n]);
    let mut w = [0u8; 255];
    fill_weights(&mut w[0..n], e);
    let count = row.len();
    apply(1, &at[0..n], &w[0..n], d, from, stride, count, row);
}

// The row, a column at a time, from the last to the first.
fn step_columns(row: &mut [u8], e: usize, n: usize, d: &[u8], from: usize, stride: usize)
    requires { InColumns (length d.now) from stride n (length row.old) }
    ensures { row.new ≡ columns_row e d.now from stride n (length row.old) }
{
    let last = n - 1;
    for i in (0..n).rev() {
        take_bytes(row, i == last, e, d, from + i * stride);
    }
}

// The row.
// `InColumns` is of the row's length too, so a struct of d, from, stride and n could not keep it.
fn fill_row(row: &mut [u8], e: usize, n: usize, d: &[u8], from: usize, stride: usize)
    requires { (e ≤ 510) × InColumns (length d.now) from stride n (length row.old) }
    ensures { row.new ≡ columns_row e d.now from stride n (length row.old) }
{
    if beats_products(e, n, row.len()) || beats_shifts(e, n, row.len()) {
        weigh_columns(row, e, n, d, from, stride);
        return;
    }
    step_columns(row, e, n, d, from, stride);
}

// The parity columns of the wide stripe, from the joined bytes of the plan.
pub(crate) fn fill_plain(s: Shape, n: usize, f: usize, d: &[u8], parity: &mut [u8])
    requires { ReadsPlain s n f (length d.now) (length parity.old) }
    ensures { parity.new ≡ fold_of s n f d.now }
{
    let k = s.k;
    let l = s.l;
    for j in 0..f {
        let a = j * l;
        let b = a + l;
        fill_row(&mut parity[a..b], j * k, n, d, a, f * l);
    }
}
