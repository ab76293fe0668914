// The calls of the shelf daemon: numbers and byte slices come in, 0 or the number of a refusal goes back. Crate `shelf_c` exports
// them to C, and `c/shelf.h` documents them. Each is thin over a proved function of a crate below, and refuses bad numbers and
// lengths itself.
#![tactic(auto)]

pub mod check;
pub mod records;

ghost use Rattle.std.specs.Prelude.{◌≡◌, length};
ghost use Rattle.coding.specs.Encode.{encode_refusal, encoded};
ghost use Rattle.plan.specs.Plan.{fold_refusal, columns_read, bytes_read, span_at};
ghost use Rattle.plan.specs.Plan.{columns_written, bytes_written, access_cost, conversion_bandwidth};
ghost use Rattle.fold.specs.Fold.{fold_verdict, fold_filled};
ghost use Rattle.mending.specs.Mend.{Mended};
ghost use Rattle.stripe.specs.Refusal.{refusal_of};
ghost use Rattle.shelf.specs.Shelf.{shape_of, spans_answer, reported, Planned};

use coding::encode::encode;
use fold::fold;
use mending::mend;
use plan::counts::{Bytes, Columns, bill_of, bytes_read, columns_read};
use plan::{Span, fold_refusal, span_at};
use stripe::Shape;
use stripe::refusal::Refusal;

// The shape of these numbers.
pub(crate) fn shape_of(k: u64, r: u64, t: u64, l: u64) -> Shape
    ensures { result ≡ shape_of k r t l }
{
    Shape::new(k as usize, r as usize, t as usize, l as usize)
}

// The number of an answer: 0, or its refusal's.
fn number(answer: Result<(), Refusal>) -> u32
    ensures { result ≡ refusal_of answer }
{
    match answer {
        Ok(_) => 0,
        Err(no) => u32::from(no),
    }
}

// 0, and the parity of the data is filled in; or 1, 2 or 5, and nothing is written.
pub fn shelf_encode(k: u64, r: u64, t: u64, l: u64, data: &[u8], parity: &mut [u8]) -> u32
    ensures value { result ≡ encode_refusal (shape_of k r t l) (length «data».now) (length parity.old) }
    ensures parity_after { parity.new ≡ encoded (shape_of k r t l) «data».now parity.old }
{
    let s = shape_of(k, r, t, l);
    number(encode(s, data, parity))
}

// 0, and the lost columns are mended; or 1, 2, 5, 6, 7 or 8, and nothing is written.
pub fn shelf_mend(k: u64, r: u64, t: u64, l: u64, stripe: &mut [u8], lost: &[u8]) -> u32
    ensures { Mended (shape_of k r t l) lost.now stripe.old result stripe.new }
{
    let shape = shape_of(k, r, t, l);
    number(mend(shape, stripe, lost))
}

// 0, and the parity of the wide stripe is filled in from the bytes of the plan; or 1 to 5, and nothing is written.
pub fn shelf_fold(
    k: u64,
    r: u64,
    t: u64,
    l: u64,
    stripes: u64,
    f: u64,
    read: &[u8],
    parity: &mut [u8],
) -> u32
    ensures value { result ≡ fold_verdict (shape_of k r t l) stripes f (length read.now) (length parity.old) }
    ensures parity_after { parity.new ≡ fold_filled (shape_of k r t l) stripes f read.now parity.old }
{
    let s = shape_of(k, r, t, l);
    number(fold(s, stripes as usize, f as usize, read, parity))
}

// 0 where these stripes can be folded; or 1 to 4.
pub fn shelf_plan_refusal(k: u64, r: u64, t: u64, l: u64, stripes: u64, f: u64) -> u32
    ensures { result ≡ fold_refusal (shape_of k r t l) stripes f }
{
    let s = shape_of(k, r, t, l);
    number(fold_refusal(s, stripes as usize, f as usize))
}

// How many columns the plan reads; 0 where the fold is refused.
pub fn shelf_plan_columns_read(k: u64, r: u64, t: u64, l: u64, stripes: u64, f: u64) -> Columns
    ensures { result.0 ≡ columns_read (shape_of k r t l) stripes f }
{
    let s = shape_of(k, r, t, l);
    columns_read(s, stripes as usize, f as usize)
}

// How many bytes the plan reads; 0 where the fold is refused.
pub fn shelf_plan_bytes_read(k: u64, r: u64, t: u64, l: u64, stripes: u64, f: u64) -> Bytes
    ensures { result.0 ≡ bytes_read (shape_of k r t l) stripes f }
{
    let s = shape_of(k, r, t, l);
    bytes_read(s, stripes as usize, f as usize)
}

// How many columns the fold writes; 0 where it is refused.
pub fn shelf_plan_columns_written(k: u64, r: u64, t: u64, l: u64, stripes: u64, f: u64) -> Columns
    ensures { result.0 ≡ columns_written (shape_of k r t l) stripes f }
{
    let s = shape_of(k, r, t, l);
    bill_of(s, stripes as usize, f as usize).columns.written
}

// How many columns the fold reads and writes; 0 where it is refused.
pub fn shelf_plan_columns_sum(k: u64, r: u64, t: u64, l: u64, stripes: u64, f: u64) -> Columns
    ensures { result.0 ≡ access_cost (shape_of k r t l) stripes f }
{
    let s = shape_of(k, r, t, l);
    bill_of(s, stripes as usize, f as usize).columns.sum
}

// How many bytes the fold writes; 0 where it is refused.
pub fn shelf_plan_bytes_written(k: u64, r: u64, t: u64, l: u64, stripes: u64, f: u64) -> Bytes
    ensures { result.0 ≡ bytes_written (shape_of k r t l) stripes f }
{
    let s = shape_of(k, r, t, l);
    bill_of(s, stripes as usize, f as usize).bytes.written
}

// How many bytes the fold reads and writes; 0 where it is refused.
pub fn shelf_plan_bytes_sum(k: u64, r: u64, t: u64, l: u64, stripes: u64, f: u64) -> Bytes
    ensures { result.0 ≡ conversion_bandwidth (shape_of k r t l) stripes f }
{
    let s = shape_of(k, r, t, l);
    bill_of(s, stripes as usize, f as usize).bytes.sum
}

// How many spans are written to a list of so many records; refused as the fold is, else as `Buffer` where the plan has more spans.
fn spans_answer(
    k: u64,
    r: u64,
    t: u64,
    l: u64,
    stripes: u64,
    f: u64,
    room: usize,
) -> Result<usize, Refusal>
    ensures { reported result ≡ spans_answer (shape_of k r t l) stripes f room }
{
    let s = shape_of(k, r, t, l);
    fold_refusal(s, stripes as usize, f as usize)?;
    let spans = columns_read(s, stripes as usize, f as usize).number();
    if room < spans {
        return Err(Refusal::Buffer);
    }
    Ok(spans)
}

// Span number i of the plan.
fn plan_span(k: u64, r: u64, t: u64, l: u64, stripes: u64, f: u64, i: usize) -> Span
    ensures { result ≡ span_at (shape_of k r t l) stripes f i }
{
    let s = shape_of(k, r, t, l);
    span_at(s, stripes as usize, f as usize, i)
}

// 0, and the spans of the plan stand in order at the front of the list, whose rest stays; or 1 to 5, and nothing is written.
pub fn shelf_plan_spans(
    k: u64,
    r: u64,
    t: u64,
    l: u64,
    stripes: u64,
    f: u64,
    spans: &mut [Span],
) -> u32
    ensures { Planned (shape_of k r t l) stripes f spans.old result spans.new }
{
    match spans_answer(k, r, t, l, stripes, f, spans.len()) {
        Ok(n) => {
            for i in 0..n {
                spans[i] = plan_span(k, r, t, l, stripes, f, i);
            }
            0
        }
        Err(no) => u32::from(no),
    }
}
