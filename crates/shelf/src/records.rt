// Records: one read into a stripe and a list, and one written.
ghost use Rattle.std.specs.Prelude.{◌≡◌, length as length_of};
ghost use Rattle.writing.specs.Writing.{out_written};
ghost use Rattle.shelf.specs.Shelf.{shape_of};
ghost use Rattle.shelf.specs.Records.{read_number, stripe_left, lost_left, numbers_of, numbers_left, write_number, length_left};

use crate::shape_of;
use record::read::{Read, read_record};
use stripe::refusal::Refusal;
use writing::write_record;

// 0, and the surviving columns, the lost positions and the five numbers k, r, t, l and how many are lost are filled in; or a
// refusal, and nothing is written.
pub fn shelf_read_record(
    record: &[u8],
    stripe: &mut [u8],
    lost: &mut [u16],
    numbers: &mut [u64],
) -> u32
    ensures value { result ≡ read_number «record».now stripe.old lost.old numbers.old }
    ensures stripe_after { stripe.new
        ≡ stripe_left «record».now stripe.old lost.old numbers.old }
    ensures lost_after { lost.new
        ≡ lost_left «record».now stripe.old lost.old numbers.old }
    ensures numbers_after { numbers.new
        ≡ numbers_left «record».now stripe.old lost.old numbers.old }
{
    if numbers.len() != 5 {
        return u32::from(Refusal::Buffer);
    }
    match read_record(record, stripe, lost) {
        Ok(read) => {
            put_numbers(read, numbers);
            0
        }
        Err(no) => u32::from(no),
    }
}

// The five numbers of what was read.
fn put_numbers(read: Read, numbers: &mut [u64])
    requires { length_of numbers.old ≡ 5 }
    ensures { numbers.new ≡ numbers_of read.shape read.lost }
{
    let s = read.shape;
    numbers.copy_from_slice(&[
        s.k as u64,
        s.r as u64,
        s.t as u64,
        s.l as u64,
        read.lost as u64,
    ]);
}

// 0, and the record stands at the front of the output, whose rest stays, and its length is written; or a refusal, and nothing is.
pub fn shelf_write_record(
    k: u64,
    r: u64,
    t: u64,
    l: u64,
    stripe: &[u8],
    lost: &[u16],
    out: &mut [u8],
    length: &mut u64,
) -> u32
    ensures value { result ≡ write_number (shape_of k r t l) stripe.now lost.now out.old }
    ensures out_after { out.new ≡ out_written (shape_of k r t l) stripe.now lost.now out.old }
    ensures length_after { length.new
        ≡ length_left (shape_of k r t l) stripe.now lost.now out.old length.old }
{
    let s = shape_of(k, r, t, l);
    match write_record(s, stripe, lost, out) {
        Ok(written) => {
            *length = written as u64;
            0
        }
        Err(no) => u32::from(no),
    }
}
