// Reading a record, front to back: it is judged whole by pure functions, and only then anything is written.
ghost use Rattle.std.specs.Prelude.{◌≡◌, ℕ, ◌<◌, ◌≤◌, length, get_or, IfOk};
ghost use Rattle.field.specs.Bytes.{over};
ghost use Rattle.stripe.specs.Refusal.{refusal_of};
ghost use Rattle.number.specs.Number.{number_at, Value};
ghost use Rattle.record.specs.Reading.{stripe_refusal, head_refusal, head_read, position_refusal, positions_refusal};
ghost use Rattle.record.specs.Reading.{after_positions, columns_refusal, content_refusal, lawful_of, reported, got_of};
ghost use Rattle.record.specs.Reading.{positions_at, columns_filled, positions_filled, stripe_read, lost_read};

use crate::columns::fill_columns;
use number::{Number, read_number};
use stripe::Shape;
use stripe::refusal::Refusal;

// What was read: the shape, and how many columns are lost.
#[derive(Clone, Copy)]
pub struct Read {
    pub shape: Shape,
    pub lost: usize,
}

// The shape at the front of a record, and the place after it.
#[derive(Clone, Copy)]
struct Head {
    shape: Shape,
    next: usize,
}

// A lawful record: its shape, how many columns are lost, and where their positions and the columns start.
#[derive(Clone, Copy)]
struct Lawful {
    shape: Shape,
    lost: usize,
    first: usize,
    end: usize,
}

// Refused as the shape is, else as `Buffer` where the stripe has more than 65,536 bytes.
pub fn stripe_refusal(s: Shape) -> Result<(), Refusal>
    ensures { refusal_of result ≡ stripe_refusal s }
{
    s.refusal()?;
    if 65536 < (s.k + s.r) * s.l {
        return Err(Refusal::Buffer);
    }
    Ok(())
}

// The shape at the front of a record.
fn read_head(s: &[u8]) -> Result<Head, Refusal>
    ensures refusal { refusal_of result ≡ head_refusal s.now }
    ensures ok { IfOk result (λ h. h ≡ head_read s.now) }
{
    let k = read_number(s, 0)?;
    let r = read_number(s, k.next)?;
    let t = read_number(s, r.next)?;
    let l = read_number(s, t.next)?;
    let shape = Shape::new(k.value, r.value, t.value, l.value);
    stripe_refusal(shape)?;
    Ok(Head {
        shape,
        next: l.next,
    })
}

// The position at a place, at least `least` and below n.
fn read_position(s: &[u8], at: usize, least: usize, n: usize) -> Result<Number, Refusal>
    ensures refusal { refusal_of result ≡ position_refusal (number_at s.now at) least n }
    ensures ok { IfOk result (λ e. Value e.value e.next ≡ number_at s.now at) }
{
    let position = read_number(s, at)?;
    if position.value < least || n <= position.value {
        return Err(Refusal::Lost);
    }
    Ok(position)
}

// The place after m positions, strictly ascending and below n.
fn judge_positions(s: &[u8], n: usize, m: usize, first: usize) -> Result<usize, Refusal>
    ensures refusal { refusal_of result ≡ positions_refusal s.now n m 0 first }
    ensures ok { IfOk result (λ end. end ≡ after_positions s.now m first) }
{
    let mut least = 0;
    let mut at = first;
    for _ in 0..m {
        let position = read_position(s, at, least, n)?;
        least = position.value + 1;
        at = position.next;
    }
    Ok(at)
}

// Refused as `Cut` where the columns are cut, as `LeftOver` where bytes are left over.
fn columns_refusal(have: usize, want: usize) -> Result<(), Refusal>
    ensures { refusal_of result ≡ columns_refusal have want }
{
    if have < want {
        return Err(Refusal::Cut);
    }
    if want < have {
        return Err(Refusal::LeftOver);
    }
    Ok(())
}

// Judges what follows the shape: the lost count, the positions, and how many bytes the columns have.
fn judge_rest(s: &[u8], head: Head) -> Result<Lawful, Refusal>
    requires accepted { head_refusal s.now ≡ 0 }
    requires head_is { head ≡ head_read s.now }
    ensures refusal { refusal_of result ≡ content_refusal s.now }
    ensures ok { IfOk result (λ x. x ≡ lawful_of s.now) }
{
    let count = read_number(s, head.next)?;
    let shape = head.shape;
    let n = shape.k + shape.r;
    if n < count.value {
        return Err(Refusal::Lost);
    }
    let end = judge_positions(s, n, count.value, count.next)?;
    columns_refusal(s.len().saturating_sub(end), (n - count.value) * shape.l)?;
    Ok(Lawful {
        shape,
        lost: count.value,
        first: count.next,
        end,
    })
}

// Judges the bytes of a record.
fn judge(s: &[u8]) -> Result<Lawful, Refusal>
    ensures refusal { refusal_of result ≡ content_refusal s.now }
    ensures ok { IfOk result (λ x. x ≡ lawful_of s.now) }
{
    let head = read_head(s)?;
    judge_rest(s, head)
}

// Writes m positions, which fit 16 bits, at the front of the list. All were judged to be numbers; for what is none, 0 would stand.
fn fill_lost(s: &[u8], m: usize, first: usize, lost: &mut [u16])
    requires m_in_bounds { m ≤ length lost.old }
    requires by_index { (i : ℕ) → get_or (positions_at s.now m first) i 0 < 65536 }
    ensures { lost.new ≡ over lost.old 0 (positions_at s.now m first) }
{
    let mut at = first;
    for i in 0..m {
        let position = read_number(s, at).unwrap_or_default();
        lost[i] = position.value as u16;
        at = position.next;
    }
}

// Fills the stripe buffer and the list from a lawful record.
fn fill(bytes: &[u8], lawful: Lawful, stripe: &mut [u8], lost: &mut [u16])
    requires accepted { content_refusal bytes.now ≡ 0 }
    requires lawful_is { lawful ≡ lawful_of bytes.now }
    requires stripe_len { (length stripe.old ≡ 65536) × (length lost.old ≡ 258) }
    ensures stripe_after { stripe.new ≡ columns_filled bytes.now stripe.old }
    ensures lost_after { lost.new ≡ positions_filled bytes.now lost.old }
{
    let shape = lawful.shape;
    fill_lost(bytes, lawful.lost, lawful.first, lost);
    fill_columns(
        &bytes[lawful.end..],
        shape.l,
        shape.k + shape.r,
        &lost[..lawful.lost],
        stripe,
    );
}

// Reads a record: reports its shape and how many columns are lost, fills the surviving columns of a buffer of 65,536 bytes,
// and puts the lost positions at the front of a list of 258. A refusal writes nothing.
pub fn read_record(bytes: &[u8], stripe: &mut [u8], lost: &mut [u16]) -> Result<Read, Refusal>
    ensures value { reported result ≡ got_of bytes.now (length stripe.old) (length lost.old) }
    ensures stripe_after { stripe.new ≡ stripe_read bytes.now stripe.old (length lost.old) }
    ensures lost_after { lost.new ≡ lost_read bytes.now (length stripe.old) lost.old }
{
    if 65536 < bytes.len() || stripe.len() != 65536 || lost.len() != 258 {
        return Err(Refusal::Buffer);
    }
    let lawful = judge(bytes)?;
    fill(bytes, lawful, stripe, lost);
    Ok(Read {
        shape: lawful.shape,
        lost: lawful.lost,
    })
}
