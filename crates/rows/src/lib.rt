// Rows of whole columns, filled into a buffer or added to a run, in blocks of 64 places. The rows of a block are formed together, by
// Horner's rule from the last column to the first, in local arrays that the loops of `lanes` and `steps` are lent. Each count of rows
// has its own functions, and a block has the literal length 64: so the compiler keeps it in registers. The last block of a column ends
// where the column ends, over bytes that are there already; only a column shorter than a block is taken row by row, and 16 places at a
// time, as the end of a run is. Three rows of many columns are formed in `wide`.
#![tactic(auto)]

mod wide;

ghost use Rattle.std.specs.Prelude.{◌≡◌, true, List, ℕ, ◌+◌, ◌*◌, ◌≤◌, ◌<◌, length, get_or};
ghost use Rattle.field.specs.Field.{◌⊕◌, ◌⊗◌};
ghost use Rattle.lanes.specs.Lanes.{onto, both};
ghost use Rattle.rows.specs.Rows.{columns_fit, rows_fit, run_fits, filled, added, step_of, RowIn, RowsBelow, RowsTo, Put, Added};
ghost use Rattle.stripe.specs.Shape.{most_rows};

use crate::wide::fill_wide;
use lanes::{add, copy};
use steps::{double_add, quadruple_add, quadruple_add_two};
use stripe::{MOST_DATA, MOST_LENGTH, MOST_ROWS};

// From how many columns on three rows take less time in `wide`.
const WIDE: usize = 48;

// Rows 0, 1 and 2 of a block, or the first two of them.
#[derive(Clone, Copy)]
pub(crate) struct Rows {
    pub(crate) row0: [u8; 64],
    pub(crate) row1: [u8; 64],
    pub(crate) row2: [u8; 64],
}

// The n bytes from `at` on: any row of a last column alone.
pub(crate) fn last(data: &[u8], at: usize, n: usize) -> [u8; 64]
    requires { (at + n ≤ length «data».now) × (n ≤ 64) }
    ensures { (q : ℕ) → q < n → get_or result q 0 ≡ get_or «data».now (at + q) 0 }
{
    let e = at + n;
    let mut a = [0u8; 64];
    copy(&mut a, &data[at..e]);
    a
}

// Row j, of the first three, of the k columns of l bytes, at the n places from `from` on.
fn row_block(data: &[u8], k: usize, l: usize, j: usize, from: usize, n: usize) -> [u8; 64]
    requires { (length «data».now ≡ k * l) × ((0 < k) × ((j < most_rows) × ((n ≤ 64) × (from + n ≤ l)))) }
    ensures { RowIn «data».now k l from n j result }
{
    // Slower with i * l in its place: four times where parts are short.
    let mut o = data.len() - l;
    let mut a = last(data, o + from, n);
    for i in (0..k - 1).rev() {
        o -= l;
        let s = o + from;
        let e = s + n;
        step(&mut a, &data[s..e], j);
    }
    a
}

// At each place g^j times the first, and the second; j is one of the first three.
fn step(a: &mut [u8], d: &[u8], j: usize)
    ensures { a.new ≡ onto (step_of j) a.old d.now }
{
    if j < 1 {
        add(a, d);
        return;
    }
    if j < 2 {
        double_add(a, d);
        return;
    }
    quadruple_add(a, d);
}

// Rows 0 and 1 at the 64 places from `from` on.
fn block2(data: &[u8], k: usize, l: usize, from: usize) -> Rows
    requires { (length «data».now ≡ k * l) × ((0 < k) × (from + 64 ≤ l)) }
    ensures { RowIn «data».now k l from 64 0 result.row0 × RowIn «data».now k l from 64 1 result.row1 }
{
    let mut row0 = last(data, (k - 1) * l + from, 64);
    let mut row1 = row0;
    for i in (0..k - 1).rev() {
        let s = i * l + from;
        let e = s + 64;
        let d = &data[s..e];
        add(&mut row0, d);
        double_add(&mut row1, d);
    }
    let row2 = [0u8; 64];
    Rows { row0, row1, row2 }
}

// One column more of rows 0, 1 and 2.
pub(crate) fn one_more(row0: &mut [u8; 64], row1: &mut [u8; 64], row2: &mut [u8; 64], d: &[u8])
    ensures row0_after { row0.new ≡ onto (λ (x y : ℕ). x ⊕ y) row0.old d.now }
    ensures row1_after { row1.new ≡ onto (λ (x y : ℕ). 2 ⊗ x ⊕ y) row1.old d.now }
    ensures row2_after { row2.new ≡ onto (λ (x y : ℕ). 4 ⊗ x ⊕ y) row2.old d.now }
{
    add(row0, d);
    double_add(row1, d);
    quadruple_add(row2, d);
}

// Two columns more of rows 0, 1 and 2; row 2 takes them at once, which is less work.
fn two_more(row0: &mut [u8; 64], row1: &mut [u8; 64], row2: &mut [u8; 64], d: &[u8], f: &[u8])
    ensures row0_after { row0.new
        ≡ onto (λ (x y : ℕ). x ⊕ y) (onto (λ (x y : ℕ). x ⊕ y) row0.old d.now) f.now }
    ensures row1_after { row1.new
        ≡ onto (λ (x y : ℕ). 2 ⊗ x ⊕ y) (onto (λ (x y : ℕ). 2 ⊗ x ⊕ y) row1.old d.now) f.now }
    ensures row2_after { row2.new
        ≡ onto (λ (x w : ℕ). 16 ⊗ x ⊕ w) row2.old (both (λ (y z : ℕ). 4 ⊗ y ⊕ z) d.now f.now) }
{
    add(row0, d);
    add(row0, f);
    double_add(row1, d);
    double_add(row1, f);
    quadruple_add_two(row2, d, f);
}

// Rows 0, 1 and 2 at the 64 places from `from` on, two columns at a time.
fn block3(data: &[u8], k: usize, l: usize, from: usize) -> Rows
    requires { (length «data».now ≡ k * l) × ((0 < k) × (from + 64 ≤ l)) }
    ensures { RowIn «data».now k l from 64 0 result.row0
        × (RowIn «data».now k l from 64 1 result.row1 × RowIn «data».now k l from 64 2 result.row2) }
{
    let mut row0 = last(data, (k - 1) * l + from, 64);
    let mut row1 = row0;
    let mut row2 = row0;
    let odd = (k - 1) % 2;
    for m in (0..(k - 1) / 2).rev() {
        let i = odd + 2 * m;
        let s = (i + 1) * l + from;
        let e = s + 64;
        let t = i * l + from;
        let u = t + 64;
        two_more(&mut row0, &mut row1, &mut row2, &data[s..e], &data[t..u]);
    }
    if 0 < odd {
        let e = from + 64;
        one_more(&mut row0, &mut row1, &mut row2, &data[from..e]);
    }
    Rows { row0, row1, row2 }
}

// The first n bytes of the block b, from `at` on.
pub(crate) fn put(out: &mut [u8], at: usize, n: usize, b: &[u8; 64])
    requires { (at + n ≤ length out.old) × (n ≤ 64) }
    ensures { Put out.old at n b.now out.new }
{
    let e = at + n;
    copy(&mut out[at..e], b);
}

// Where the block starts that takes the place b of l places: there, or where the last block does.
fn block_at(b: usize, l: usize) -> usize
    requires { (b < l) × (64 ≤ l) }
    ensures { (result ≤ b) × ((b < result + 64) × (result + 64 ≤ l)) }
{
    b.min(l - 64)
}

// Row 0 at the 64 places from `from` on, where those before are there.
fn fill_block1(data: &[u8], k: usize, l: usize, from: usize, out: &mut [u8])
    requires { (length «data».now ≡ k * l)
        × ((0 < k) × ((from + 64 ≤ l) × ((length out.old ≡ 1 * l) × RowsBelow «data».now k l 1 from out.old))) }
    ensures { RowsBelow «data».now k l 1 (from + 64) out.new }
{
    let b = row_block(data, k, l, 0, from, 64);
    put(out, from, 64, &b);
}

// Rows 0 and 1 at the 64 places from `from` on, where those before are there.
fn fill_block2(data: &[u8], k: usize, l: usize, from: usize, out: &mut [u8])
    requires { (length «data».now ≡ k * l)
        × ((0 < k) × ((from + 64 ≤ l) × ((length out.old ≡ 2 * l) × RowsBelow «data».now k l 2 from out.old))) }
    ensures { RowsBelow «data».now k l 2 (from + 64) out.new }
{
    let v = block2(data, k, l, from);
    let b0 = v.row0;
    put(out, from, 64, &b0);
    let b1 = v.row1;
    put(out, l + from, 64, &b1);
}

// Rows 0, 1 and 2 at the 64 places from `from` on, where those before are there.
fn fill_block3(data: &[u8], k: usize, l: usize, from: usize, out: &mut [u8])
    requires { (length «data».now ≡ k * l)
        × ((0 < k) × ((from + 64 ≤ l) × ((length out.old ≡ 3 * l) × RowsBelow «data».now k l 3 from out.old))) }
    ensures { RowsBelow «data».now k l 3 (from + 64) out.new }
{
    let v = block3(data, k, l, from);
    let b0 = v.row0;
    put(out, from, 64, &b0);
    let b1 = v.row1;
    put(out, l + from, 64, &b1);
    let b2 = v.row2;
    put(out, l + l + from, 64, &b2);
}

// The first r rows at the 64 places from `from` on, where those before are there.
fn fill_block(data: &[u8], k: usize, l: usize, r: usize, from: usize, out: &mut [u8])
    requires { (length «data».now ≡ k * l)
        × ((0 < k)
        × ((from + 64 ≤ l) × ((1 ≤ r) × ((r ≤ most_rows) × ((length out.old ≡ r * l) × RowsBelow «data».now k l r from out.old))))) }
    ensures { RowsBelow «data».now k l r (from + 64) out.new }
{
    if r < 2 {
        fill_block1(data, k, l, from, out);
        return;
    }
    if r < 3 {
        fill_block2(data, k, l, from, out);
        return;
    }
    fill_block3(data, k, l, from, out);
}

// The first r rows of columns no shorter than a block.
fn fill_long(data: &[u8], k: usize, l: usize, r: usize, out: &mut [u8])
    requires { (length «data».now ≡ k * l) × ((0 < k) × ((64 ≤ l) × ((1 ≤ r) × ((r ≤ most_rows) × (length out.old ≡ r * l))))) }
    ensures { RowsBelow «data».now k l r l out.new }
{
    // With blocks by number one row of few columns took up to a sixth longer.
    let mut b = 0;
    while b < l {
        let at = block_at(b, l);
        fill_block(data, k, l, r, at, out);
        b = at + 64;
    }
}

// The first r rows of columns no longer than a block.
fn fill_short(data: &[u8], k: usize, l: usize, r: usize, out: &mut [u8])
    requires { (length «data».now ≡ k * l) × ((0 < k) × ((l ≤ 64) × ((length out.old ≡ r * l) × (r ≤ most_rows)))) }
    ensures { RowsBelow «data».now k l r l out.new }
{
    for j in 0..r {
        fill_row(data, k, l, j, out);
    }
}

// Row j of columns no longer than a block, where those before are there.
fn fill_row(data: &[u8], k: usize, l: usize, j: usize, out: &mut [u8])
    requires { (length «data».now ≡ k * l)
        × ((0 < k) × ((l ≤ 64) × ((j < most_rows) × ((j * l + l ≤ length out.old) × RowsBelow «data».now k l j l out.old)))) }
    ensures { (length out.new ≡ length out.old)
        × RowsBelow «data».now k l (j + 1) l out.new }
{
    // With parts by number three of them took up to a third longer.
    let mut b = 0;
    while 16 <= l - b {
        fill_part(data, k, l, j, b, 16, out);
        b += 16;
    }
    if b < l {
        fill_part(data, k, l, j, b, l - b, out);
    }
}

// Row j at the n places from `from` on, where those before and the rows before are there.
fn fill_part(data: &[u8], k: usize, l: usize, j: usize, from: usize, n: usize, out: &mut [u8])
    requires { (length «data».now ≡ k * l)
        × ((0 < k)
        × ((n ≤ 64)
        × ((from + n ≤ l) × ((j < most_rows) × ((j * l + l ≤ length out.old) × RowsTo «data».now k l j from out.old))))) }
    ensures { (length out.new ≡ length out.old)
        × RowsTo «data».now k l j (from + n) out.new }
{
    let c = row_block(data, k, l, j, from, n);
    put(out, j * l + from, n, &c);
}

// Whether d bytes are k columns of l bytes, within the numbers of a stripe.
fn columns_fit(d: usize, k: usize, l: usize) -> bool
    ensures { result ≡ columns_fit d k l }
{
    if k < 1 {
        return false;
    }
    if MOST_DATA < k {
        return false;
    }
    if MOST_LENGTH < l {
        return false;
    }
    d == k * l
}

// Whether, besides, n bytes are as long as r rows of them, 1 to 3.
fn rows_fit(d: usize, k: usize, l: usize, r: usize, n: usize) -> bool
    ensures { result ≡ rows_fit d k l r n }
{
    if !columns_fit(d, k, l) {
        return false;
    }
    if r < 1 {
        return false;
    }
    if MOST_ROWS < r {
        return false;
    }
    n == r * l
}

// Whether, besides, the n places from `from` on are places of row j, of the first three.
fn run_fits(d: usize, k: usize, l: usize, j: usize, from: usize, n: usize) -> bool
    ensures { result ≡ run_fits d k l j from n }
{
    if !columns_fit(d, k, l) {
        return false;
    }
    if MOST_ROWS <= j {
        return false;
    }
    if l < from {
        return false;
    }
    n <= l - from
}

// Whether r rows of k columns are formed in `wide`.
fn many(k: usize, r: usize) -> bool
    ensures { result ≡ true → 3 ≤ r }
{
    if r < 3 {
        return false;
    }
    WIDE <= k
}

// The first r rows of the k columns of l bytes, at all places; where the numbers do not fit, the buffer stays.
pub fn fill_rows(data: &[u8], k: usize, l: usize, r: usize, out: &mut [u8])
    ensures { out.new ≡ filled «data».now k l r out.old }
{
    if !rows_fit(data.len(), k, l, r, out.len()) {
        return;
    }
    if l < 64 {
        fill_short(data, k, l, r, out);
        return;
    }
    if many(k, r) {
        fill_wide(data, k, l, out);
        return;
    }
    fill_long(data, k, l, r, out);
}

// Row j, of the first three, at the n places from `from` on, added at the n places of a run from `at` on.
fn add_block(
    data: &[u8],
    k: usize,
    l: usize,
    j: usize,
    from: usize,
    at: usize,
    n: usize,
    run: &mut [u8],
)
    requires { (length «data».now ≡ k * l) × ((0 < k) × ((j < most_rows)
        × ((n ≤ 64) × ((from + n ≤ l) × (at + n ≤ length run.old))))) }
    ensures { Added «data».now k l j from at n run.old run.new }
{
    let b = row_block(data, k, l, j, from, n);
    let e = at + n;
    add(&mut run[at..e], &b);
}

// Row j, of the first three, at the places from `from` on, added to a run; where the numbers do not fit, it stays.
pub fn add_row(data: &[u8], k: usize, l: usize, j: usize, from: usize, run: &mut [u8])
    ensures { run.new ≡ added «data».now k l j from run.old }
{
    let m = run.len();
    if !run_fits(data.len(), k, l, j, from, m) {
        return;
    }
    for c in 0..m / 64 {
        add_block(data, k, l, j, from + c * 64, c * 64, 64, run);
    }
    add_rest(data, k, l, j, from, m / 64 * 64, run);
}

// The same of a run to which it is added at the b first places: at those that are left.
fn add_rest(data: &[u8], k: usize, l: usize, j: usize, from: usize, b: usize, run: &mut [u8])
    requires { (length «data».now ≡ k * l) × ((0 < k) × ((j < most_rows)
        × ((from + length run.old ≤ l) × (b ≤ length run.old)))) }
    ensures { (ps : List ℕ) → Added «data».now k l j from 0 b ps run.old
        → Added «data».now k l j from 0 (length ps) ps run.new }
{
    let m = run.len();
    // With parts by number two of them took up to a tenth longer.
    let mut q = b;
    while 16 <= m - q {
        add_block(data, k, l, j, from + q, q, 16, run);
        q += 16;
    }
    if q < m {
        add_block(data, k, l, j, from + q, q, m - q, run);
    }
}
