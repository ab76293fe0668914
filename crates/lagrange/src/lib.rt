// The weights by which bytes at some points make up bytes at others: Lagrange's polynomials. Sixteen of the others are taken at a time, one
// to a lane. A row is the product of what they are apart from the points before its own and from those after it, times a constant of the
// row.
#![tactic(auto)]

mod inverse;

ghost use Rattle.std.specs.Prelude.{◌≡◌, ℕ, ◌+◌, ◌*◌, ◌<◌, ◌≤◌, length, get_or};
ghost use Rattle.field.specs.Field.{◌⊕◌, ◌⊗◌};
ghost use Rattle.lagrange.specs.Weights.{weights_fit, weighed};
ghost use Rattle.lagrange.specs.Lanes.{ApartFromOthers, Constants, Spread, RowTimes, Polynomials, Laid, Filled};

use inverse::inverse;
use lanes::copy;
use products::multiply;
use std::array::from_fn;

// The points of at most 16 rows, and the constants of the rows.
#[derive(Clone, Copy)]
struct Rows<'a> {
    points: &'a [u8],
    constants: &'a [u8; 16],
    ghost few: { length points.now ≤ 16 },
    ghost made: { Constants points.now constants.now },
}

// Whether there are at most 16 rows of at most 255 weights, and c bytes are these.
fn fits(r: usize, m: usize, c: usize) -> bool
    ensures { result ≡ weights_fit r m c }
{
    r <= 16 && m <= 255 && c == r * m
}

// What each lane is apart from b.
fn apart(y: &[u8; 16], b: u8) -> [u8; 16]
    ensures { (length result ≡ 16) × ((q : ℕ) → q < 16 → get_or result q 0 ≡ get_or y.now q 0 ⊕ b) }
{
    from_fn(|q| y[q] ^ b)
}

// What each of the first 16 bytes is apart from the one s places on.
fn apart_by(z: &[u8; 32], s: usize) -> [u8; 16]
    requires { s ≤ 16 }
    ensures { (length result ≡ 16) × ((q : ℕ) → q < 16 → get_or result q 0 ≡ get_or z.now q 0 ⊕ get_or z.now (q + s) 0) }
{
    from_fn(|q| z[q] ^ z[q + s])
}

// The product of what each of the points is apart from the others, one to a lane. The points stand twice in a row, so that the others are
// those 1, 2 and so on places on.
fn apart_from_others(bs: &[u8]) -> [u8; 16]
    requires { length bs.now ≤ 16 }
    ensures { ApartFromOthers bs.now result }
{
    let n = bs.len();
    let mut z = [0u8; 32];
    copy(&mut z, bs);
    copy(&mut z[n..n + n], bs);
    let mut p = [1u8; 16];
    for s in 1..n {
        let d = apart_by(&z, s);
        multiply(&mut p, &d);
    }
    p
}

// The constants of the rows.
fn constants(bs: &[u8]) -> [u8; 16]
    requires { length bs.now ≤ 16 }
    ensures { Constants bs.now result }
{
    let p = apart_from_others(bs);
    from_fn(|v| inverse(p[v]))
}

// Each of n rows is its constant, in every lane.
fn spread(cs: &[u8; 16], n: usize, rows: &mut [u8; 256])
    requires { n ≤ 16 }
    ensures { Spread cs.now n rows.new }
{
    for v in 0..n {
        rows[v * 16..v * 16 + 16].fill(cs[v]);
    }
}

// Row v times p; and what each lane is apart from b, times p.
fn further(rows: &mut [u8; 256], v: usize, p: &[u8; 16], y: &[u8; 16], b: u8) -> [u8; 16]
    requires { v < 16 }
    ensures row_times { RowTimes v p.now rows.old rows.new }
    ensures result_len { (length result ≡ 16)
        × ((q : ℕ) → q < 16 → get_or result q 0 ≡ (get_or y.now q 0 ⊕ b) ⊗ get_or p.now q 0) }
{
    multiply(&mut rows[v * 16..v * 16 + 16], p);
    let mut d = apart(y, b);
    multiply(&mut d, p);
    d
}

// Each lane of each row is Lagrange's polynomial. From the first row on p is what each lane is apart from the points before row v, and
// from the last row back s is what it is apart from those after row u: the two go on side by side, since neither waits for the other.
fn polynomials(of: &Rows, y: &[u8; 16], rows: &mut [u8; 256])
    ensures { Polynomials of.now.points.now y.now rows.new }
{
    let bs = of.points;
    let n = bs.len();
    if n == 0 {
        return;
    }
    spread(of.constants, n, rows);
    let mut p = apart(y, bs[0]);
    let mut s = apart(y, bs[n - 1]);
    for v in 1..n {
        let u = n - 1 - v;
        p = further(rows, v, &p, y, bs[v]);
        s = further(rows, u, &s, y, bs[u]);
    }
}

// The w bytes from `at` on, one to a lane.
fn lanes_of(ys: &[u8], at: usize, w: usize) -> [u8; 16]
    requires { (at + w ≤ length ys.now) × (w ≤ 16) }
    ensures { (length result ≡ 16) × ((q : ℕ) → q < w → get_or result q 0 ≡ get_or ys.now (at + q) 0) }
{
    let mut y = [0u8; 16];
    copy(&mut y, &ys[at..at + w]);
    y
}

// The first w lanes of each of r rows, from `at` on in rows of m bytes.
fn lay(rows: &[u8; 256], r: usize, m: usize, at: usize, w: usize, out: &mut [u8])
    requires { (r ≤ 16) × ((w ≤ 16) × ((m ≤ 255) × ((at + w ≤ m) × (length out.old ≡ r * m)))) }
    ensures { Laid rows.now r m at w out.old out.new }
{
    for v in 0..r {
        let o = v * m + at;
        copy(&mut out[o..o + w], &rows[v * 16..v * 16 + w]);
    }
}

// The weights of the w points from `at` on. The two numbers stay: a slice of ys would not say where its weights are laid.
fn block(of: &Rows, ys: &[u8], at: usize, w: usize, out: &mut [u8])
    requires { (length ys.now ≤ 255) × ((w ≤ 16) × ((at + w ≤ length ys.now) × Filled of.now.points.now ys.now at out.old)) }
    ensures { Filled of.now.points.now ys.now (at + w) out.new }
{
    let y = lanes_of(ys, at, w);
    let mut rows = [0u8; 256];
    polynomials(of, &y, &mut rows);
    lay(&rows, of.points.len(), ys.len(), at, w, out);
}

// Row v of the weights, at place c: Lagrange's polynomial of point v of the first, at point c of the second. Where the numbers do not fit,
// what is there stays.
pub fn weights(bs: &[u8], ys: &[u8], out: &mut [u8])
    ensures { out.new ≡ weighed bs.now ys.now out.old }
{
    if !fits(bs.len(), ys.len(), out.len()) {
        return;
    }
    let cs = constants(bs);
    let of = Rows {
        points: bs,
        constants: &cs,
    };
    for i in 0..ys.len().div_ceil(16) {
        let at = i * 16;
        let w = (ys.len() - at).min(16);
        block(&of, ys, at, w, out);
    }
}
