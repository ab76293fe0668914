// What the rows lack, with one column x set apart: each row over the weight that column x has in it. So no product is needed.
// The columns from x on are an encoding of their own; the parity and the columns before x come by Horner's rule upwards, by the halves
// and quarters of `downwards`, a block of 64 places at a time: rows 0 and 1 together, then row 2 where there is one. A block has the
// literal length 64: so the compiler keeps it in registers. The first block of a column adds only as many places as leave whole blocks.
ghost use Rattle.std.specs.Prelude.{◌≡◌, ℕ, ◌+◌, ◌*◌, ◌≤◌, ◌<◌, length, get_or};
ghost use Rattle.syndromes.specs.Apart.{Apart, Parted, Places, BelowIn, Plus, RowsTo};

use crate::downwards::{halve_add, quarter_add};
use coding::encode::encode_by_rows;
use lanes::{add, copy};
use stripe::Shape;

// What each of the first r rows lacks of the parity as it lies, over its weight g^(j*x) of column x.
pub(crate) fn fill_apart(s: Shape, x: usize, stripe: &[u8], out: &mut [u8])
    requires { Parted stripe.now s.k s.l s.r x (length out.old) }
    ensures { Apart stripe.now s.k s.l s.r x out.new }
{
    let k = s.k;
    let l = s.l;
    let upper = Shape::new(k - x, s.r, 0, l);
    let from = x * l;
    let to = k * l;
    encode_by_rows(upper, &stripe[from..to], out);
    add_below(s, x, stripe, out);
}

// To the rows of the columns from x on, the parity and the columns before x.
fn add_below(s: Shape, x: usize, stripe: &[u8], out: &mut [u8])
    requires { Parted stripe.now s.k s.l s.r x (length out.old) × RowsTo stripe.now s.k s.l s.r x 0 0 out.old }
    ensures { RowsTo stripe.now s.k s.l s.r x s.l s.l out.new }
{
    let l = s.l;
    let n = l % 64;
    if 0 < n {
        add_rows(s, x, stripe, 0, n, out);
        add_row2(s, x, stripe, 0, n, out);
    }
    for b in 0..l / 64 {
        let from = n + b * 64;
        add_rows(s, x, stripe, from, 64, out);
        add_row2(s, x, stripe, from, 64, out);
    }
}

// The same of rows 0 and 1, at the n places from `from` on, where those before are there.
fn add_rows(s: Shape, x: usize, stripe: &[u8], from: usize, n: usize, out: &mut [u8])
    requires { Places stripe.now s.k s.l s.r x from × ((n ≤ 64) × RowsTo stripe.now s.k s.l s.r x from from out.old) }
    ensures { RowsTo stripe.now s.k s.l s.r x (from + n) from out.new }
{
    let l = s.l;
    let v = below(s, x, stripe, from);
    let b0 = v.row0;
    plus(out, from, n, &b0);
    let b1 = v.row1;
    plus(out, l + from, n, &b1);
}

// The same of row 2, where there is one.
fn add_row2(s: Shape, x: usize, stripe: &[u8], from: usize, n: usize, out: &mut [u8])
    requires { Places stripe.now s.k s.l s.r x from × ((n ≤ 64) × RowsTo stripe.now s.k s.l s.r x (from + n) from out.old) }
    ensures { RowsTo stripe.now s.k s.l s.r x (from + n) (from + n) out.new }
{
    let r = s.r;
    let l = s.l;
    if r < 3 {
        return;
    }
    let b2 = below_row2(s, x, stripe, from);
    plus(out, l + l + from, n, &b2);
}

// Rows 0 and 1 of a block.
#[derive(Clone, Copy)]
struct Rows {
    row0: [u8; 64],
    row1: [u8; 64],
}

// Of rows 0 and 1 the parity and the columns before x, at the 64 places from `from` on.
fn below(s: Shape, x: usize, stripe: &[u8], from: usize) -> Rows
    requires { Places stripe.now s.k s.l 2 x from }
    ensures { BelowIn stripe.now s.k s.l x from 64 0 result.row0 × BelowIn stripe.now s.k s.l x from 64 1 result.row1 }
{
    let l = s.l;
    let p = s.k * l + from;
    let mut row0 = bytes_at(stripe, p);
    let mut row1 = bytes_at(stripe, p + l);
    for i in 0..x {
        let o = i * l + from;
        let e = o + 64;
        let d = &stripe[o..e];
        add(&mut row0, d);
        halve_add(&mut row1, d);
    }
    Rows { row0, row1 }
}

// The same of row 2.
fn below_row2(s: Shape, x: usize, stripe: &[u8], from: usize) -> [u8; 64]
    requires { Places stripe.now s.k s.l 3 x from }
    ensures { BelowIn stripe.now s.k s.l x from 64 2 result }
{
    let l = s.l;
    let p = s.k * l + from;
    let mut row2 = bytes_at(stripe, p + l + l);
    for i in 0..x {
        let o = i * l + from;
        let e = o + 64;
        quarter_add(&mut row2, &stripe[o..e]);
    }
    row2
}

// The 64 bytes from `at` on.
fn bytes_at(stripe: &[u8], at: usize) -> [u8; 64]
    requires { at + 64 ≤ length stripe.now }
    ensures { (length result ≡ 64) × ((q : ℕ) → q < 64 → get_or result q 0 ≡ get_or stripe.now (at + q) 0) }
{
    let mut a = [0u8; 64];
    let e = at + 64;
    copy(&mut a, &stripe[at..e]);
    a
}

// The first n bytes of b, added from `at` on.
fn plus(out: &mut [u8], at: usize, n: usize, b: &[u8; 64])
    requires { (at + n ≤ length out.old) × (n ≤ 64) }
    ensures { Plus out.old at n b.now out.new }
{
    if n < 64 {
        let e = at + n;
        add(&mut out[at..e], b);
        return;
    }
    let e = at + 64;
    add(&mut out[at..e], b);
}
