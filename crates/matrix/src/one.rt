// One row alone. Sums of groups would serve it only: instead the columns whose constant has a bit are listed, bit by bit, and a block is
// Horner's rule over the bits with these columns added from where they lie.
ghost use Rattle.std.specs.Prelude.{◌≡◌, map, ℕ, ◌+◌, ◌*◌, ◌/◌, ◌%◌, ◌<◌, ◌≤◌, length, get_or};
ghost use Rattle.field.specs.Field.{◌⊕◌, ◌⊗◌};
ghost use Rattle.matrix.specs.Sums.{fall, Inside, Held};
ghost use Rattle.matrix.specs.Listing.{Listed, Lists, ListedInside, AllInside, listed};

use crate::{block, put};
use lanes::{add, copy};
use steps::double_add;

// Each byte halved.
fn halve(p: &mut [u8])
    ensures { p.new ≡ map (λ (x : ℕ). x / 2) p.old }
{
    for x in p.iter_mut() {
        *x /= 2;
    }
}

// The numbers whose byte is odd, from `at` on; how many they are comes back. Each number is written, and the next one is written over
// it where its byte is even: so no step depends on the byte.
fn odd(ls: &mut [u8], at: usize, p: &[u8], cs: &[u8]) -> usize
    requires { (at + length cs.now ≤ length ls.old) × (length cs.now ≤ length p.now) }
    ensures listed { Listed (λ i. get_or p.now i 0 % 2) cs.now (length cs.now) at result ls.new }
    ensures by_index { (i : ℕ) → i < at → get_or ls.new i 0 ≡ get_or ls.old i 0 }
{
    let mut n = 0;
    for (i, c) in cs.iter().enumerate() {
        ls[at + n] = *c;
        n += usize::from(p[i] % 2);
    }
    n
}

// The lists of the columns by the eight bits of their weights, 256 apart, and how long they are.
fn lists(ls: &mut [u8], ns: &mut [u8], weights: &[u8], cs: &[u8])
    requires { (length ls.old ≡ 2048) × ((length ns.old ≡ 8)
        × ((length weights.now ≡ length cs.now) × (length cs.now ≤ 255))) }
    ensures { Lists weights.now cs.now 8 ns.new ls.new }
{
    let mut p = [0u8; 256];
    copy(&mut p, weights);
    for b in 0..8 {
        ns[b] = odd(ls, b * 256, &p, cs) as u8;
        halve(&mut p);
    }
}

// Twice y, and w bytes from `from` on of each of the n columns that are listed from `at` on.
fn add_listed(
    y: &mut [u8; 64],
    columns: &[u8],
    from: usize,
    stride: usize,
    ls: &[u8],
    at: usize,
    n: usize,
    w: usize,
)
    requires { (at + n ≤ length ls.now) × ((w ≤ 64) × ListedInside columns.now from stride ls.now at n w) }
    ensures { (q : ℕ) → q < w
        → get_or y.new q 0 ≡ 2 ⊗ get_or y.old q 0 ⊕ listed columns.now from stride ls.now at n q }
{
    let zero = [0u8; 64];
    double_add(y, &zero);
    for j in 0..n {
        let d = block(columns, from + usize::from(ls[at + j]) * stride, w);
        add(y, &d);
    }
}

// The row at w places, from `from` on in the first column.
fn listed_row(
    columns: &[u8],
    from: usize,
    stride: usize,
    ls: &[u8],
    ns: &[u8],
    w: usize,
) -> [u8; 64]
    requires { (length ls.now ≡ 2048) × ((length ns.now ≡ 8)
        × ((w ≤ 64) × AllInside columns.now from stride ns.now ls.now w)) }
    ensures { (q : ℕ) → q < w → get_or result q 0
        ≡ fall 8 0 (λ b. listed columns.now from stride ls.now (b * 256) (get_or ns.now b 0) q) }
{
    let mut y = [0u8; 64];
    for b in (0..8).rev() {
        add_listed(
            &mut y,
            columns,
            from,
            stride,
            ls,
            b * 256,
            usize::from(ns[b]),
            w,
        );
    }
    y
}

// The row of these weights at every place.
pub(crate) fn one_row(
    weights: &[u8],
    cs: &[u8],
    columns: &[u8],
    from: usize,
    stride: usize,
    count: usize,
    out: &mut [u8],
)
    requires { (1 ≤ length cs.now) × ((length cs.now ≤ 255) × ((length weights.now ≡ length cs.now)
        × (Inside columns.now cs.now from stride count × (length out.old ≡ count)))) }
    ensures { Held weights.now cs.now columns.now from stride count 1 (length cs.now)
        out.new }
{
    let mut ls = [0u8; 2048];
    let mut ns = [0u8; 8];
    lists(&mut ls, &mut ns, weights, cs);
    // a `while`: with `for` over the blocks short columns take longer, as in `slab`
    let mut at = 0;
    while at < count {
        let w = (count - at).min(64);
        let y = listed_row(columns, from + at, stride, &ls, &ns, w);
        put(out, at, w, &y);
        at += w;
    }
}
