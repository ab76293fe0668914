// Syndromes: what the rows of a stripe lack of its parity as it lies, whatever its columns hold. They may be had over the weights of
// one data column, which costs no product where a column has room for a block.
#![tactic(auto)]

mod apart;
mod downwards;

ghost use Rattle.std.specs.Prelude.{◌≡◌, true, ◌*◌, ◌≤◌, length};
ghost use Rattle.syndromes.specs.Syndromes.{Lent, Syndromes, Filled, Says, InBlocks, Divided};
ghost use Rattle.stripe.specs.Shape.{most_data, most_rows};

use crate::apart::fill_apart;
use coding::encode::encode_by_rows;
use field::Gf;
use lanes::add;
use products::scale_all;
use stripe::{MOST_ROWS, Shape};

// What each row lacks of the parity as it lies, over the weight that column x has in it; nothing is written where the stripe, the
// buffer or x is not as `Lent` says.
pub fn syndromes(s: Shape, x: usize, stripe: &[u8], out: &mut [u8])
    ensures { Filled s x stripe.now out.old out.new }
{
    if !lent(s, x, stripe.len(), out.len()) {
        return;
    }
    if !in_blocks(s, x) {
        fill_whole(s, x, stripe, out);
        return;
    }
    fill_apart(s, x, stripe, out);
}

// Whether a stripe of d bytes and a buffer of p bytes are lent as they should be, and x may be set apart.
fn lent(s: Shape, x: usize, d: usize, p: usize) -> bool
    ensures { Says result (Lent s x d p) }
{
    if s.refusal().is_err() {
        return false;
    }
    let k = s.k;
    let r = s.r;
    let l = s.l;
    if MOST_ROWS < r {
        return false;
    }
    if d != (k + r) * l {
        return false;
    }
    if p != r * l {
        return false;
    }
    if x == 0 {
        return true;
    }
    if s.t != 0 {
        return false;
    }
    x < k
}

// Whether the rows are to be formed in blocks: where a weight of column x may be other than 1, and a column has room for a block.
fn in_blocks(s: Shape, x: usize) -> bool
    ensures { result ≡ true → InBlocks s x }
{
    if x == 0 {
        return false;
    }
    if s.r < 2 {
        return false;
    }
    64 <= s.l
}

// What each row lacks of the parity as it lies: the parity of the data as they lie, and the parity columns added; over the weights of
// column x.
fn fill_whole(s: Shape, x: usize, stripe: &[u8], out: &mut [u8])
    requires { Lent s x (length stripe.now) (length out.old) }
    ensures { Syndromes s x stripe.now out.new }
{
    let k = s.k;
    let l = s.l;
    let d = k * l;
    encode_by_rows(s, &stripe[..d], out);
    add(out, &stripe[d..]);
    divide(s, x, out);
}

// Each row over its weight of column x, by a product.
fn divide(s: Shape, x: usize, out: &mut [u8])
    requires { (length out.old ≡ s.r * s.l) × (s.r * x ≤ most_rows * most_data) }
    ensures { Divided s.l s.r x out.old out.new }
{
    if x == 0 {
        return;
    }
    let r = s.r;
    let l = s.l;
    for j in 1..r {
        let a = j * l;
        let e = a + l;
        let c = Gf::power(j * x).inverse();
        scale_all(&mut out[a..e], c.0);
    }
}
