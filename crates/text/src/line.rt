// The lines of the text of a stripe, each written over what stands from a place on; the answer is the place after it.
ghost use Rattle.std.specs.Prelude.{◌≡◌, cond, ◌+◌, ◌*◌, ◌≤◌, length};
ghost use Rattle.field.specs.Bytes.{over};
ghost use Rattle.text.specs.Text.{kept_word, mended_word, number_then, first_line, column_line, column_lines};

use crate::put::{put_byte, put_decimal, put_hex, put_word};
use stripe::{Shape, is_lost};

// ` kept ` or ` mended `.
fn put_state(out: &mut [u8], at: usize, mended: bool) -> usize
    requires { at + length (cond mended mended_word kept_word) ≤ length out.old }
    ensures value { result ≡ at + length (cond mended mended_word kept_word) }
    ensures out_after { out.new ≡ over out.old at (cond mended mended_word kept_word) }
{
    if mended {
        return put_word(out, at, b" mended ");
    }
    put_word(out, at, b" kept ")
}

// The line of a column.
#[tactic(auto, using(crate::proofs::Pieces::pieces), unfolding(crate::specs::Text::column_line))]
fn put_line(out: &mut [u8], at: usize, c: usize, mended: bool, column: &[u8]) -> usize
    requires { at + length (column_line c mended column.now) ≤ length out.old }
    ensures value { result ≡ at + length (column_line c mended column.now) }
    ensures out_after { out.new ≡ over out.old at (column_line c mended column.now) }
{
    let a = put_decimal(out, at, c);
    let b = put_state(out, a, mended);
    let d = put_hex(out, b, column);
    put_byte(out, d, b'\n')
}

// The lines of n columns of l bytes.
pub(crate) fn put_lines(
    out: &mut [u8],
    at: usize,
    l: usize,
    n: usize,
    lost: &[u16],
    stripe: &[u8],
) -> usize
    requires { (n * l ≤ length stripe.now) × (at + length (column_lines l lost.now 0 n stripe.now) ≤ length out.old) }
    ensures value { result ≡ at + length (column_lines l lost.now 0 n stripe.now) }
    ensures out_after { out.new ≡ over out.old at (column_lines l lost.now 0 n stripe.now) }
{
    let mut next = at;
    for c in 0..n {
        let from = c * l;
        next = put_line(out, next, c, is_lost(lost, c), &stripe[from..from + l]);
    }
    next
}

// A number and the byte after it.
#[tactic(auto, using(crate::proofs::Pieces::pieces))]
pub(crate) fn put_number(out: &mut [u8], at: usize, n: usize, after: u8) -> usize
    requires { at + length (number_then n after) ≤ length out.old }
    ensures value { result ≡ at + length (number_then n after) }
    ensures out_after { out.new ≡ over out.old at (number_then n after) }
{
    let next = put_decimal(out, at, n);
    put_byte(out, next, after)
}

// The word `stripe` and k, r, t, l.
#[tactic(auto, using(crate::proofs::Pieces::pieces), unfolding(crate::specs::Text::first_line))]
pub(crate) fn put_first(out: &mut [u8], at: usize, s: Shape) -> usize
    requires { at + length (first_line s) ≤ length out.old }
    ensures value { result ≡ at + length (first_line s) }
    ensures out_after { out.new ≡ over out.old at (first_line s) }
{
    let k = s.k;
    let r = s.r;
    let t = s.t;
    let l = s.l;
    let a = put_word(out, at, b"stripe ");
    let b = put_number(out, a, k, b' ');
    let c = put_number(out, b, r, b' ');
    let d = put_number(out, c, t, b' ');
    put_number(out, d, l, b'\n')
}
