// A record mended: read and mended in buffers of its own, and only then handed out, so that a refusal writes nothing.
ghost use Rattle.std.specs.Prelude.{◌≡◌, ◌*◌, ◌≤◌, length};
ghost use Rattle.stripe.specs.Refusal.{refusal_of};
ghost use Rattle.record.specs.Reading.{reported};
ghost use Rattle.mending.specs.Mend.{Mended};
ghost use Rattle.answer.specs.Answer.{pairs, blank_stripe, Answered, Worked};

use mending::mend;
use record::read::{Read, read_record};
use stripe::Shape;
use stripe::refusal::Refusal;

// The record mended: the stripe over the front of 65,536 lent bytes, the lost positions over the front of a lent list of 258. Its shape and
// the number of lost columns are answered, or the refusal.
pub fn mend_record(bytes: &[u8], stripe: &mut [u8], lost: &mut [u16]) -> Result<Read, Refusal>
    ensures { Answered bytes.now stripe.old lost.old (reported result) stripe.new lost.new }
{
    if stripe.len() != 65536 || lost.len() != 258 {
        return Err(Refusal::Buffer);
    }
    let mut held = [0u8; 65536];
    let mut list = [0u16; 258];
    let read = read_and_mend(bytes, &mut held, &mut list)?;
    let n = (read.shape.k + read.shape.r) * read.shape.l;
    let m = read.lost;
    stripe[..n].copy_from_slice(&held[..n]);
    lost[..m].copy_from_slice(&list[..m]);
    Ok(read)
}

// The record read and mended in place.
pub(crate) fn read_and_mend(
    bytes: &[u8],
    held: &mut [u8],
    list: &mut [u16],
) -> Result<Read, Refusal>
    requires { (held.old ≡ blank_stripe) × (length list.old ≡ 258) }
    ensures { Worked bytes.now (reported result) held.new list.new }
{
    let read = read_record(bytes, held, list)?;
    let n = (read.shape.k + read.shape.r) * read.shape.l;
    let m = read.lost;
    mend_listed(read.shape, &mut held[..n], &list[..m])?;
    Ok(read)
}

// The stripe mended whose lost positions are listed.
fn mend_listed(s: Shape, stripe: &mut [u8], lost: &[u16]) -> Result<(), Refusal>
    requires { length lost.now ≤ 258 }
    ensures { Mended s (pairs lost.now) stripe.old (refusal_of result) stripe.new }
{
    let mut list = [0u8; 516];
    let m = 2 * lost.len();
    put_pairs(lost, &mut list[..m]);
    mend(s, stripe, &list[..m])
}

// The positions as pairs of bytes.
fn put_pairs(lost: &[u16], list: &mut [u8])
    requires { length list.old ≡ 2 * length lost.now }
    ensures { list.new ≡ pairs lost.now }
{
    for (i, e) in lost.iter().enumerate() {
        list[2 * i..2 * i + 2].copy_from_slice(&e.to_le_bytes());
    }
}
