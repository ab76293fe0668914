// A matrix of bytes times columns, by sums of groups. For a block of 64 places the 16 sums of each group of four columns are formed
// once. A row is then Horner's rule over the eight bits of its constants: double, and add of each group the sum whose number is that
// bit of the group's four constants. No product is ever formed. Columns are taken in slabs of 28, whose sums fit a local table.
// Throughout, t is that table, es holds the numbers of the sums, by row, group and bit, and cs holds the numbers of the columns used:
// column c starts at from + c * stride. One row alone is formed in `one`.
#![tactic(auto)]

mod one;

ghost use Rattle.std.specs.Prelude.{◌≡◌, true, cond, ℕ, ◌+◌, ◌*◌, ◌/◌, ◌%◌, ◌<◌, ◌≤◌, leb, length, get_or};
ghost use Rattle.field.specs.Field.{◌⊕◌, ◌⊗◌};
ghost use Rattle.matrix.specs.Matrix.{numbers_fit, columns_fit, matrix_fits, becomes};
ghost use Rattle.matrix.specs.Sums.{halved, side_by_side, in_group, Inside, Part, Widened, Summed, Tabled, ZeroFirst, picked, row_value};
ghost use Rattle.matrix.specs.Sums.{Numbers, RowNumbers, AllNumbers, Numbered, RowMade, AllNumbered, Rowed, Held, Greatest};

use lanes::{add, copy};
use one::one_row;
use steps::double_add;

// ---- blocks of 64 bytes, by value, so that they stay in registers

// The w bytes from `at` on; of a whole block by a literal length.
pub(crate) fn block(s: &[u8], at: usize, w: usize) -> [u8; 64]
    requires { (at + w ≤ length s.now) × (w ≤ 64) }
    ensures { (q : ℕ) → q < w → get_or result q 0 ≡ get_or s.now (at + q) 0 }
{
    let mut a = [0u8; 64];
    if w < 64 {
        copy(&mut a, &s[at..at + w]);
        return a;
    }
    copy(&mut a, &s[at..at + 64]);
    a
}

// The first w bytes of b, from `at` on; of a whole block by a literal length, which is lost where it isn't put into its callers.
#[inline(always)]
pub(crate) fn put(out: &mut [u8], at: usize, w: usize, b: &[u8; 64])
    requires { (at + w ≤ length out.old) × (w ≤ 64) }
    ensures { Part (λ (x y : ℕ). y) out.old at w b.now out.new }
{
    if w < 64 {
        copy(&mut out[at..at + w], b);
        return;
    }
    copy(&mut out[at..at + 64], b);
}

// The first w bytes of b, added from `at` on. Apart from `put`: a closure for the step would need its law in both contracts.
fn put_more(out: &mut [u8], at: usize, w: usize, b: &[u8; 64])
    requires { (at + w ≤ length out.old) × (w ≤ 64) }
    ensures { Part (λ (x y : ℕ). x ⊕ y) out.old at w b.now out.new }
{
    if w < 64 {
        add(&mut out[at..at + w], b);
        return;
    }
    add(&mut out[at..at + 64], b);
}

// ---- the sums of a group

// How many of n columns stand in group g of four.
fn in_group(n: usize, g: usize) -> usize
    requires { g * 4 ≤ n }
    ensures { result ≡ in_group n g }
{
    (n - g * 4).min(4)
}

// The first `have` sums of the group g with d added, after them.
fn widen(t: &mut [u8], g: usize, have: usize, d: &[u8; 64])
    requires { (length t.old ≡ 7168) × ((g < 7) × (have ≤ 8)) }
    ensures { Widened g have have d.now t.old t.new }
{
    for c in 0..have {
        let mut a = block(t, (g * 16 + c) * 64, 64);
        add(&mut a, d);
        put(t, (g * 16 + have + c) * 64, 64, &a);
    }
}

// All sums of n columns, from number i of the list on, at w places.
fn sums(
    t: &mut [u8],
    g: usize,
    cs: &[u8],
    i: usize,
    n: usize,
    columns: &[u8],
    from: usize,
    stride: usize,
    w: usize,
)
    requires { (length t.old ≡ 7168) × ((g < 7) × ((n ≤ 4) × ((i + n ≤ length cs.now)
        × ((w ≤ 64) × Inside columns.now cs.now from stride w)))) }
    ensures { Summed columns.now cs.now from stride w i g n t.old t.new }
{
    let zero = [0u8; 64];
    put(t, g * 1024, 64, &zero);
    let mut have = 1;
    for j in 0..n {
        let d = block(columns, from + usize::from(cs[i + j]) * stride, w);
        widen(t, g, have, &d);
        have *= 2;
    }
}

// The sums of each group of four of n columns, from number i of the list on.
fn tables(
    t: &mut [u8],
    cs: &[u8],
    i: usize,
    n: usize,
    columns: &[u8],
    from: usize,
    stride: usize,
    w: usize,
)
    requires { (length t.old ≡ 7168) × ((n ≤ 28) × ((i + n ≤ length cs.now)
        × ((w ≤ 64) × Inside columns.now cs.now from stride w))) }
    ensures { Tabled columns.now cs.now from stride w i n t.new }
{
    for g in 0..n.div_ceil(4) {
        let k = in_group(n, g);
        sums(t, g, cs, i + g * 4, k, columns, from, stride, w);
    }
}

// ---- the numbers of the sums

// Weight j of n from `at` on; 0 past them.
fn weight(matrix: &[u8], at: usize, j: usize, n: usize) -> u8
    requires { at + n ≤ length matrix.now }
    ensures { (j < n → result ≡ get_or matrix.now (at + j) 0) × (n ≤ j → result ≡ 0) }
{
    if j < n { matrix[at + j] } else { 0 }
}

// Byte b of what comes back is bit b of w: the factor brings w to each byte, where the mask leaves bit b, and the sum carries it to bit 7.
fn spread(w: u8) -> u64
    ensures { (result ≡ side_by_side 8 0 (λ b. halved b w % 2)) × (result ≤ 0x0101_0101_0101_0101) }
{
    let y = (u64::from(w) * 0x0101_0101_0101_0101) & 0x8040_2010_0804_0201;
    ((y + 0x0040_6070_787c_7e7f) / 128) & 0x0101_0101_0101_0101
}

// Byte b of what comes back is the number whose bits are the bits b of four bytes.
fn packed(x: u8, y: u8, z: u8, v: u8) -> u64
    ensures { result
        ≡ side_by_side 8 0 (λ b. halved b x % 2 + halved b y % 2 * 2 + halved b z % 2 * 4 + halved b v % 2 * 8) }
{
    spread(x) + spread(y) * 2 + spread(z) * 4 + spread(v) * 8
}

// The numbers of the eight bits of the n weights from `from` on, n at most four, to the eight places from `at` on.
fn numbers(es: &mut [u8], at: usize, matrix: &[u8], from: usize, n: usize)
    requires { (at + 8 ≤ length es.old) × ((n ≤ 4) × (from + n ≤ length matrix.now)) }
    ensures { Numbered (λ j. get_or matrix.now (from + j) 0) at n 8 es.old es.new }
{
    let x = weight(matrix, from, 0, n);
    let y = weight(matrix, from, 1, n);
    let z = weight(matrix, from, 2, n);
    let v = weight(matrix, from, 3, n);
    let mut p = packed(x, y, z, v);
    for b in 0..8 {
        es[at + b] = (p % 256) as u8;
        p /= 256;
    }
}

// The numbers of a row of n weights from `from` on, group by group.
fn row_numbers(es: &mut [u8], row: usize, matrix: &[u8], from: usize, n: usize)
    requires { (row + 64 ≤ length es.old) × ((n ≤ 28) × (from + n ≤ length matrix.now)) }
    ensures { RowMade (λ j. get_or matrix.now (from + j) 0) row n ((n + 3) / 4) es.old es.new }
{
    for g in 0..n.div_ceil(4) {
        let k = in_group(n, g);
        numbers(es, row + g * 8, matrix, from + g * 4, k);
    }
}

// The numbers of the n columns from i on of every row.
fn all_numbers(es: &mut [u8], rows: usize, matrix: &[u8], m: usize, i: usize, n: usize)
    requires { (length es.old ≡ 1024) × ((rows ≤ 16) × ((n ≤ 28) × ((i + n ≤ m) × (length matrix.now ≡ rows * m)))) }
    ensures { AllNumbered matrix.now m i n rows es.new }
{
    for s in 0..rows {
        row_numbers(es, s * 64, matrix, s * m + i, n);
    }
}

// ---- a row of a block

// Twice y, and of each of n groups the sum whose number stands from `row` on, eight apart.
fn bit_step(y: &mut [u8; 64], t: &[u8], es: &[u8], row: usize, n: usize)
    requires { (length t.now ≡ 7168) × ((row + 56 < length es.now) × ((1 ≤ n) × ((n ≤ 7) × Numbers es.now row n))) }
    ensures { (q : ℕ) → q < 64
        → get_or y.new q 0 ≡ 2 ⊗ get_or y.old q 0 ⊕ picked t.now es.now row n q }
{
    let first = usize::from(es[row]) * 64;
    double_add(y, &t[first..first + 64]);
    for g in 1..n {
        let o = (g * 16 + usize::from(es[row + g * 8])) * 64;
        add(y, &t[o..o + 64]);
    }
}

// The row whose numbers stand from `row` on, of n groups. It starts as the sum of no column, read from the table: so the compiler
// learns where the table stands, and reads it by aligned blocks.
fn straight(t: &[u8], es: &[u8], row: usize, n: usize) -> [u8; 64]
    requires { (length t.now ≡ 7168) × ((row + 64 ≤ length es.now) × ((1 ≤ n) × ((n ≤ 7)
        × (ZeroFirst t.now × RowNumbers es.now row n)))) }
    ensures { (q : ℕ) → q < 64 → get_or result q 0 ≡ row_value t.now es.now row n q }
{
    let mut y = block(t, 0, 64);
    for b in (0..8).rev() {
        bit_step(&mut y, t, es, row + b, n);
    }
    y
}

// ---- the rows of a block

// The first w bytes of y from `at` on: set, or added to what is there.
fn lay(out: &mut [u8], at: usize, w: usize, y: &[u8; 64], fresh: bool)
    requires { (at + w ≤ length out.old) × (w ≤ 64) }
    ensures { Part (λ (a b : ℕ). cond fresh 0 a ⊕ b) out.old at w y.now out.new }
{
    if fresh {
        put(out, at, w, y);
        return;
    }
    put_more(out, at, w, y);
}

// Each row at the w places from `at` on.
fn rows_block(
    t: &[u8],
    es: &[u8],
    rows: usize,
    groups: usize,
    fresh: bool,
    count: usize,
    at: usize,
    w: usize,
    out: &mut [u8],
)
    requires { (length t.now ≡ 7168) × ((length es.now ≡ 1024) × ((rows ≤ 16) × ((1 ≤ groups) × ((groups ≤ 7) × ((w ≤ 64)
        × ((at + w ≤ count) × ((length out.old ≡ rows * count) × (ZeroFirst t.now × AllNumbers es.now rows groups)))))))) }
    ensures { Rowed t.now es.now groups fresh count at w rows out.old out.new }
{
    for s in 0..rows {
        let y = straight(t, es, s * 64, groups);
        lay(out, s * count + at, w, &y, fresh);
    }
}

// ---- slabs of columns

// The n columns from number i of the list on, at every place of every row.
fn slab(
    rows: usize,
    cs: &[u8],
    i: usize,
    n: usize,
    matrix: &[u8],
    columns: &[u8],
    from: usize,
    stride: usize,
    count: usize,
    out: &mut [u8],
)
    requires { (rows ≤ 16) × ((1 ≤ n) × ((n ≤ 28) × ((i + n ≤ length cs.now) × ((length matrix.now ≡ rows * length cs.now)
        × (Inside columns.now cs.now from stride count × ((length out.old ≡ rows * count)
        × Held matrix.now cs.now columns.now from stride count rows i out.old)))))) }
    ensures { Held matrix.now cs.now columns.now from stride count rows (i + n)
        out.new }
{
    let mut es = [0u8; 1024];
    all_numbers(&mut es, rows, matrix, cs.len(), i, n);
    let mut t = [0u8; 7168];
    // a `while`: with `for` over the blocks 64 places of ten columns take 3 to 7 per cent longer, and the frame grows
    let mut at = 0;
    while at < count {
        let w = (count - at).min(64);
        tables(&mut t, cs, i, n, columns, from + at, stride, w);
        rows_block(&t, &es, rows, n.div_ceil(4), i == 0, count, at, w, out);
        at += w;
    }
}

// All columns, slab by slab.
fn fill(
    rows: usize,
    cs: &[u8],
    matrix: &[u8],
    columns: &[u8],
    from: usize,
    stride: usize,
    count: usize,
    out: &mut [u8],
)
    requires { (rows ≤ 16) × ((length matrix.now ≡ rows * length cs.now)
        × (Inside columns.now cs.now from stride count × (length out.old ≡ rows * count))) }
    ensures { Held matrix.now cs.now columns.now from stride count rows (length cs.now)
        out.new }
{
    for i in (0..cs.len()).step_by(28) {
        let n = (cs.len() - i).min(28);
        slab(rows, cs, i, n, matrix, columns, from, stride, count, out);
    }
}

// ---- numbers that fit

// Whether the numbers are allowed.
fn numbers_fit(rows: usize, m: usize, count: usize) -> bool
    ensures { result ≡ numbers_fit rows m count }
{
    if rows < 1 {
        return false;
    }
    if 16 < rows {
        return false;
    }
    if m < 1 {
        return false;
    }
    if 255 < m {
        return false;
    }
    if count < 1 {
        return false;
    }
    count <= 4096
}

// The greatest of the numbers.
fn greatest(cs: &[u8]) -> u8
    requires { 1 ≤ length cs.now }
    ensures { Greatest cs.now (length cs.now) result }
{
    cs.iter().fold(0, |c, x| c.max(*x))
}

// Whether column c ends within b bytes: by differences and a quotient, since from and stride are any numbers.
fn ends_within(c: usize, b: usize, from: usize, stride: usize, count: usize) -> bool
    ensures { result ≡ leb (from + c * stride + count) b }
{
    if b < count {
        return false;
    }
    if b - count < from {
        return false;
    }
    if c < 1 {
        return true;
    }
    stride <= (b - count - from) / c
}

// Whether each column ends within b bytes: the one with the greatest number ends last.
fn columns_fit(cs: &[u8], b: usize, from: usize, stride: usize, count: usize) -> bool
    requires { 1 ≤ length cs.now }
    ensures { result ≡ columns_fit cs.now b from stride count }
{
    ends_within(usize::from(greatest(cs)), b, from, stride, count)
}

// Whether the numbers fit a matrix of a bytes, columns in b bytes and rows of c bytes.
fn fits(
    rows: usize,
    cs: &[u8],
    from: usize,
    stride: usize,
    count: usize,
    a: usize,
    b: usize,
    c: usize,
) -> bool
    ensures { result ≡ matrix_fits rows cs.now from stride count a b c }
{
    if !numbers_fit(rows, cs.len(), count) {
        return false;
    }
    if a != rows * cs.len() {
        return false;
    }
    if !columns_fit(cs, b, from, stride, count) {
        return false;
    }
    c == rows * count
}

// Whether there is one row only, and so long that its lists are worth making.
fn alone(rows: usize, count: usize) -> bool
    ensures { result ≡ true → rows ≡ 1 }
{
    if rows != 1 {
        return false;
    }
    255 < count
}

// The rows of the matrix times columns, at the `count` places from `from` on: `at` lists the numbers of the columns, which lie `stride`
// apart, so byte q of the i-th column used stands at from + at[i] * stride + q. Where the numbers do not fit, what is there stays.
pub fn apply(
    rows: usize,
    at: &[u8],
    matrix: &[u8],
    columns: &[u8],
    from: usize,
    stride: usize,
    count: usize,
    out: &mut [u8],
)
    ensures { out.new
        ≡ becomes rows at.now matrix.now columns.now from stride count out.old }
{
    if !fits(
        rows,
        at,
        from,
        stride,
        count,
        matrix.len(),
        columns.len(),
        out.len(),
    ) {
        return;
    }
    if alone(rows, count) {
        one_row(matrix, at, columns, from, stride, count, out);
        return;
    }
    fill(rows, at, matrix, columns, from, stride, count, out);
}
