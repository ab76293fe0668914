// A stripe whose data and parity are lent as two buffers: its refusal, and its column at a position.
ghost use Rattle.std.specs.Prelude.{◌≡◌, ◌+◌, ◌*◌, ◌≤◌, length, take, drop};
ghost use Rattle.stripe.specs.Column.{lent_refusal, column_of};
ghost use Rattle.stripe.specs.Refusal.{refusal_of};

use crate::Shape;
use crate::refusal::Refusal;

// The column at a position, as the part of whichever buffer holds it; where what is lent is refused, or the position is not below n, an
// empty part, and no Option: document 01 and `column_of` say so of this call alone.
pub fn column<'a>(s: Shape, data: &'a [u8], parity: &'a [u8], at: usize) -> &'a [u8]
    ensures { result.now ≡ column_of s «data».now parity.now at }
{
    if lent_refusal(s, data.len(), parity.len()).is_err() {
        return &data[0..0];
    }
    let k = s.k;
    let r = s.r;
    let l = s.l;
    if at < k {
        return part(data, l, at);
    }
    if at - k < r {
        return part(parity, l, at - k);
    }
    &data[0..0]
}

// Refused as the shape is, else as `Buffer` where there are not k*l data bytes and r*l parity bytes.
pub fn lent_refusal(s: Shape, d: usize, p: usize) -> Result<(), Refusal>
    ensures { refusal_of result ≡ lent_refusal s d p }
{
    s.refusal()?;
    if d != s.k * s.l || p != s.r * s.l {
        return Err(Refusal::Buffer);
    }
    Ok(())
}

// The l bytes of column c of a buffer that holds it.
fn part<'a>(b: &'a [u8], l: usize, c: usize) -> &'a [u8]
    requires { c * l + l ≤ length b.now }
    ensures { result.now ≡ take l (drop (c * l) b.now) }
{
    let from = c * l;
    &b[from..from + l]
}
