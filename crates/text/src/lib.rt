// The text of the mending program. Each function writes its text over the front of what is lent, leaves what follows, and answers the
// length of the text; where the text cannot be written it answers 0 and writes nothing. No Option: the length is what is printed, and
// of no text that is 0 (`printable`, `refusal_printed`).
#![tactic(auto)]

use crate::line::{put_first, put_lines, put_number};
use crate::put::put_word;
use stripe::Shape;

mod line;
mod put;

ghost use Rattle.std.specs.Prelude.{◌≡◌, length};
ghost use Rattle.field.specs.Bytes.{over};
ghost use Rattle.text.specs.Text.{printable, stripe_printed, stripe_over, refusal_printed};

// The text of a mended stripe of at most 65,536 bytes whose columns `lost` were restored, with room for 140,000 bytes.
pub fn write_text(s: Shape, lost: &[u16], stripe: &[u8], out: &mut [u8]) -> usize
    ensures value { result ≡ length (stripe_printed s lost.now stripe.now (length out.old)) }
    ensures out_after { out.new ≡ stripe_over s lost.now stripe.now out.old }
{
    if !can_print(s, stripe.len(), out.len()) {
        return 0;
    }
    let next = put_first(out, 0, s);
    let l = s.l;
    let n = s.k + s.r;
    put_lines(out, next, l, n, lost, stripe)
}

// The text of a refusal, with room for 40 bytes. A number, and no `Refusal`: it promises the text of any.
#[tactic(auto, using(crate::proofs::Printed::printing), unfolding(crate::specs::Text::refusal_text))]
pub fn write_refusal(number: u32, out: &mut [u8]) -> usize
    ensures value { result ≡ length (refusal_printed number (length out.old)) }
    ensures out_after { out.new ≡ over out.old 0 (refusal_printed number (length out.old)) }
{
    if out.len() < 40 {
        return 0;
    }
    let next = put_word(out, 0, b"refused ");
    put_number(out, next, number as usize, b'\n')
}

// Whether n bytes are a stripe that can be printed, and there is room for its text.
fn can_print(s: Shape, n: usize, room: usize) -> bool
    ensures { result ≡ printable s n room }
{
    if s.refusal().is_err() {
        return false;
    }
    if n != (s.k + s.r) * s.l {
        return false;
    }
    n <= 65536 && 140000 <= room
}
