// Writing a record: judged first; then the head, then the surviving columns one by one.
#![tactic(auto)]

use crate::columns::put_columns;
use number::{number_length, write_number};
use record::read::stripe_refusal;
use stripe::Shape;
use stripe::refusal::Refusal;

mod columns;

ghost use Rattle.std.specs.Prelude.{◌≡◌, ◌+◌, ◌≤◌, length, IfOk};
ghost use Rattle.std.proofs.lemmas.List.Edits.{sets};
ghost use Rattle.stripe.specs.Refusal.{refusal_of};
ghost use Rattle.stripe.specs.Stripe.{ascending};
ghost use Rattle.number.specs.Number.{written};
ghost use Rattle.record.specs.Layout.{positions_written, record_head, record_of};
ghost use Rattle.record.specs.Reading.{stripe_refusal};
ghost use Rattle.writing.specs.Writing.{write_refusal, reported, written_of, out_written};

// Whether the positions are strictly ascending and below n.
fn ascends_below(lost: &[u16], n: usize) -> bool
    ensures { result ≡ ascending 0 n lost.now }
{
    let mut least = 0;
    for position in lost {
        let e = usize::from(*position);
        if e < least {
            return false;
        }
        if n <= e {
            return false;
        }
        least = e + 1;
    }
    true
}

// How many bytes the positions take.
fn positions_length(lost: &[u16]) -> usize
    requires { length lost.now ≤ 258 }
    ensures { result ≡ length (positions_written lost.now) }
{
    let mut total = 0;
    for e in lost {
        total += number_length(u32::from(*e));
    }
    total
}

// How many bytes the head takes.
fn head_length(s: Shape, lost: &[u16]) -> usize
    requires s_value { stripe_refusal s ≡ 0 }
    requires lost_len_bound { length lost.now ≤ 258 }
    ensures { result ≡ length (record_head s lost.now) }
{
    let k = number_length(s.k as u32);
    let r = number_length(s.r as u32);
    let t = number_length(s.t as u32);
    let l = number_length(s.l as u32);
    let m = number_length(lost.len() as u32);
    k + r + t + l + m + positions_length(lost)
}

// How long the record will be, with room for that many bytes.
fn judge_writing(s: Shape, stripe: &[u8], lost: &[u16], room: usize) -> Result<usize, Refusal>
    ensures refusal { refusal_of result ≡ write_refusal s stripe.now lost.now room }
    ensures ok { IfOk result (λ n. n ≡ length (record_of s lost.now stripe.now)) }
{
    stripe_refusal(s)?;
    let n = s.k + s.r;
    if stripe.len() != n * s.l {
        return Err(Refusal::Buffer);
    }
    if !ascends_below(lost, n) {
        return Err(Refusal::Lost);
    }
    let length = head_length(s, lost) + (n - lost.len()) * s.l;
    if 65536 < length || room < length {
        return Err(Refusal::Buffer);
    }
    Ok(length)
}

// Writes a number at a place with room for it, and answers the place after it.
fn put_number(value: u32, out: &mut [u8], at: usize) -> usize
    requires { at + length (written value) ≤ length out.old }
    ensures value { result ≡ at + length (written value) }
    ensures out_after { out.new ≡ sets out.old at (written value) }
{
    at + write_number(value, out, at)
}

// Writes the positions at a place, and answers the place after them.
fn put_positions(lost: &[u16], out: &mut [u8], first: usize) -> usize
    requires { first + length (positions_written lost.now) ≤ length out.old }
    ensures value { result ≡ first + length (positions_written lost.now) }
    ensures out_after { out.new ≡ sets out.old first (positions_written lost.now) }
{
    let mut at = first;
    for e in lost {
        at = put_number(u32::from(*e), out, at);
    }
    at
}

// Writes the head at the front, and answers the place after it.
fn put_head(s: Shape, lost: &[u16], out: &mut [u8]) -> usize
    requires s_value { stripe_refusal s ≡ 0 }
    requires lost_len_bound { length lost.now ≤ 258 }
    requires lost_in_bounds { length (record_head s lost.now) ≤ length out.old }
    ensures value { result ≡ length (record_head s lost.now) }
    ensures out_after { out.new ≡ sets out.old 0 (record_head s lost.now) }
{
    let r = put_number(s.k as u32, out, 0);
    let t = put_number(s.r as u32, out, r);
    let l = put_number(s.t as u32, out, t);
    let m = put_number(s.l as u32, out, l);
    let first = put_number(lost.len() as u32, out, m);
    put_positions(lost, out, first)
}

// Writes the record at the front.
fn put_record(s: Shape, stripe: &[u8], lost: &[u16], out: &mut [u8])
    requires { write_refusal s stripe.now lost.now (length out.old) ≡ 0 }
    ensures { out.new ≡ sets out.old 0 (record_of s lost.now stripe.now) }
{
    let first = put_head(s, lost, out);
    put_columns(stripe, s.l, s.k + s.r, lost, out, first);
}

// Writes the record of a stripe whose listed columns are lost at the front of the output, and reports its length. A refusal
// writes nothing.
pub fn write_record(s: Shape, stripe: &[u8], lost: &[u16], out: &mut [u8]) -> Result<usize, Refusal>
    ensures value { reported result ≡ written_of s stripe.now lost.now (length out.old) }
    ensures out_after { out.new ≡ out_written s stripe.now lost.now out.old }
{
    let length = judge_writing(s, stripe, lost, out.len())?;
    put_record(s, stripe, lost, out);
    Ok(length)
}
