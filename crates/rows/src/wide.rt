// Rows 0, 1 and 2 of many columns. The columns are divided, as the coefficients of a polynomial, by x^14 + x^4 + x + 1, which is 0 at 1, g
// and g^2: that takes three sums a column and no doubling, and leaves fourteen columns that have the same three rows. Of the quotient the
// last fourteen coefficients are kept, in a ring of slots of 64 places.
ghost use Rattle.std.specs.Prelude.{◌≡◌, ℕ, ◌+◌, ◌*◌, ◌≤◌, ◌<◌, length};
ghost use Rattle.rows.specs.Remainder.{slot, Taken, Settled};
ghost use Rattle.rows.specs.Rows.{RowIn, RowsBelow};

use crate::{Rows, last, one_more, put};
use lanes::{add, copy};

// The slot n after slot s.
fn after(s: usize, n: usize) -> usize
    requires { (s < 14) × (n < 14) }
    ensures { result ≡ slot s n }
{
    if s + n < 14 { s + n } else { s + n - 14 }
}

// The next coefficient of the quotient, for the column d, in slot s, which held the one fourteen columns on.
fn take(w: &mut [u8; 896], s: usize, d: &[u8; 64])
    requires { s < 14 }
    ensures { Taken s d.now w.old w.new }
{
    let mut y = last(w, s * 64, 64);
    add(&mut y, d);
    let a = last(w, after(s, 10) * 64, 64);
    add(&mut y, &a);
    let b = last(w, after(s, 13) * 64, 64);
    add(&mut y, &b);
    put(w, s * 64, 64, &y);
}

// The remainder, from the last coefficients of the quotient.
fn settle(w: &mut [u8])
    requires { length w.old ≡ 896 }
    ensures { Settled w.old w.new }
{
    let mut t = [0u8; 256];
    copy(&mut t, &w[640..896]);
    add(w, &t);
    add(w, &t[192..256]);
}

// Rows 0, 1 and 2 of fourteen columns of 64 places.
fn fourteen(w: &[u8]) -> Rows
    requires { length w.now ≡ 896 }
    ensures { RowIn w.now 14 64 0 64 0 result.row0
        × (RowIn w.now 14 64 0 64 1 result.row1 × RowIn w.now 14 64 0 64 2 result.row2) }
{
    let mut row0 = last(w, 832, 64);
    let mut row1 = row0;
    let mut row2 = row0;
    for i in (0..13).rev() {
        let o = i * 64;
        let e = o + 64;
        one_more(&mut row0, &mut row1, &mut row2, &w[o..e]);
    }
    Rows { row0, row1, row2 }
}

// Rows 0, 1 and 2 at the 64 places from `from` on: those of the remainder.
fn wide3(data: &[u8], k: usize, l: usize, from: usize) -> Rows
    requires { (length «data».now ≡ k * l) × ((0 < k) × (from + 64 ≤ l)) }
    ensures { RowIn «data».now k l from 64 0 result.row0
        × (RowIn «data».now k l from 64 1 result.row1 × RowIn «data».now k l from 64 2 result.row2) }
{
    let mut w = [0u8; 896];
    let mut s = k % 14;
    for i in (0..k).rev() {
        s = after(s, 13);
        let d = last(data, i * l + from, 64);
        take(&mut w, s, &d);
    }
    settle(&mut w);
    fourteen(&w)
}

// Rows 0, 1 and 2 at the 64 places from `from` on, where those before are there.
fn fill_wide_block(data: &[u8], k: usize, l: usize, from: usize, out: &mut [u8])
    requires { (length «data».now ≡ k * l)
        × ((0 < k) × ((from + 64 ≤ l) × ((length out.old ≡ 3 * l) × RowsBelow «data».now k l 3 from out.old))) }
    ensures { RowsBelow «data».now k l 3 (from + 64) out.new }
{
    let v = wide3(data, k, l, from);
    let b0 = v.row0;
    put(out, from, 64, &b0);
    let b1 = v.row1;
    put(out, l + from, 64, &b1);
    let b2 = v.row2;
    put(out, l + l + from, 64, &b2);
}

// Rows 0, 1 and 2 of columns no shorter than a block. The last block is a call of its own: so the compiler gives blocks, which take
// more room than all else here, a frame of their own.
pub(crate) fn fill_wide(data: &[u8], k: usize, l: usize, out: &mut [u8])
    requires { (length «data».now ≡ k * l) × ((0 < k) × ((64 ≤ l) × (length out.old ≡ 3 * l))) }
    ensures { RowsBelow «data».now k l 3 l out.new }
{
    for c in 0..l / 64 {
        fill_wide_block(data, k, l, c * 64, out);
    }
    let b = l / 64 * 64;
    if b < l {
        fill_wide_block(data, k, l, l - 64, out);
    }
}
