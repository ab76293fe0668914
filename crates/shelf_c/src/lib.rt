// The calls of crate `shelf`, exported to C as `c/shelf.h` declares them: the archive libshelf.a is made of this crate. Each has the
// clauses of the function of `shelf` that it calls.
#![tactic(auto)]

pub mod check;
pub mod records;

ghost use Rattle.std.specs.Prelude.{◌≡◌, length};
ghost use Rattle.coding.specs.Encode.{encode_refusal, encoded};
ghost use Rattle.plan.specs.Plan.{fold_refusal, columns_read, bytes_read};
ghost use Rattle.plan.specs.Plan.{columns_written, bytes_written, access_cost, conversion_bandwidth};
ghost use Rattle.fold.specs.Fold.{fold_verdict, fold_filled};
ghost use Rattle.mending.specs.Mend.{Mended};
ghost use Rattle.shelf.specs.Shelf.{shape_of, Planned};

use plan::Span;
use plan::counts::{Bytes, Columns};

// 0, and the parity of the data is filled in; or 1, 2 or 5, and nothing is written.
#[unsafe(no_mangle)]
pub extern "C" fn shelf_encode(
    k: u64,
    r: u64,
    t: u64,
    l: u64,
    data: &[u8],
    parity: &mut [u8],
) -> u32
    ensures value { result ≡ encode_refusal (shape_of k r t l) (length «data».now) (length parity.old) }
    ensures parity_after { parity.new ≡ encoded (shape_of k r t l) «data».now parity.old }
{
    shelf::shelf_encode(k, r, t, l, data, parity)
}

// 0, and the lost columns are mended; or 1, 2, 5, 6, 7 or 8, and nothing is written.
#[unsafe(no_mangle)]
pub extern "C" fn shelf_mend(k: u64, r: u64, t: u64, l: u64, stripe: &mut [u8], lost: &[u8]) -> u32
    ensures { Mended (shape_of k r t l) lost.now stripe.old result stripe.new }
{
    shelf::shelf_mend(k, r, t, l, stripe, lost)
}

// 0, and the parity of the wide stripe is filled in from the bytes of the plan; or 1 to 5, and nothing is written.
#[unsafe(no_mangle)]
pub extern "C" fn shelf_fold(
    k: u64,
    r: u64,
    t: u64,
    l: u64,
    stripes: u64,
    f: u64,
    read: &[u8],
    parity: &mut [u8],
) -> u32
    ensures value { result ≡ fold_verdict (shape_of k r t l) stripes f (length read.now) (length parity.old) }
    ensures parity_after { parity.new ≡ fold_filled (shape_of k r t l) stripes f read.now parity.old }
{
    shelf::shelf_fold(k, r, t, l, stripes, f, read, parity)
}

// 0 where these stripes can be folded; or 1 to 4.
#[unsafe(no_mangle)]
pub extern "C" fn shelf_plan_refusal(k: u64, r: u64, t: u64, l: u64, stripes: u64, f: u64) -> u32
    ensures { result ≡ fold_refusal (shape_of k r t l) stripes f }
{
    shelf::shelf_plan_refusal(k, r, t, l, stripes, f)
}

// How many columns the plan reads; 0 where the fold is refused.
#[unsafe(no_mangle)]
pub extern "C" fn shelf_plan_columns_read(
    k: u64,
    r: u64,
    t: u64,
    l: u64,
    stripes: u64,
    f: u64,
) -> Columns
    ensures { result.0 ≡ columns_read (shape_of k r t l) stripes f }
{
    shelf::shelf_plan_columns_read(k, r, t, l, stripes, f)
}

// How many bytes the plan reads; 0 where the fold is refused.
#[unsafe(no_mangle)]
pub extern "C" fn shelf_plan_bytes_read(
    k: u64,
    r: u64,
    t: u64,
    l: u64,
    stripes: u64,
    f: u64,
) -> Bytes
    ensures { result.0 ≡ bytes_read (shape_of k r t l) stripes f }
{
    shelf::shelf_plan_bytes_read(k, r, t, l, stripes, f)
}

// How many columns the fold writes; 0 where it is refused.
#[unsafe(no_mangle)]
pub extern "C" fn shelf_plan_columns_written(
    k: u64,
    r: u64,
    t: u64,
    l: u64,
    stripes: u64,
    f: u64,
) -> Columns
    ensures { result.0 ≡ columns_written (shape_of k r t l) stripes f }
{
    shelf::shelf_plan_columns_written(k, r, t, l, stripes, f)
}

// How many columns the fold reads and writes; 0 where it is refused.
#[unsafe(no_mangle)]
pub extern "C" fn shelf_plan_columns_sum(
    k: u64,
    r: u64,
    t: u64,
    l: u64,
    stripes: u64,
    f: u64,
) -> Columns
    ensures { result.0 ≡ access_cost (shape_of k r t l) stripes f }
{
    shelf::shelf_plan_columns_sum(k, r, t, l, stripes, f)
}

// How many bytes the fold writes; 0 where it is refused.
#[unsafe(no_mangle)]
pub extern "C" fn shelf_plan_bytes_written(
    k: u64,
    r: u64,
    t: u64,
    l: u64,
    stripes: u64,
    f: u64,
) -> Bytes
    ensures { result.0 ≡ bytes_written (shape_of k r t l) stripes f }
{
    shelf::shelf_plan_bytes_written(k, r, t, l, stripes, f)
}

// How many bytes the fold reads and writes; 0 where it is refused.
#[unsafe(no_mangle)]
pub extern "C" fn shelf_plan_bytes_sum(
    k: u64,
    r: u64,
    t: u64,
    l: u64,
    stripes: u64,
    f: u64,
) -> Bytes
    ensures { result.0 ≡ conversion_bandwidth (shape_of k r t l) stripes f }
{
    shelf::shelf_plan_bytes_sum(k, r, t, l, stripes, f)
}

// 0, and the spans of the plan stand in order at the front of the list, whose rest stays; or 1 to 5, and nothing is written.
#[unsafe(no_mangle)]
pub extern "C" fn shelf_plan_spans(
    k: u64,
    r: u64,
    t: u64,
    l: u64,
    stripes: u64,
    f: u64,
    spans: &mut [Span],
) -> u32
    ensures { Planned (shape_of k r t l) stripes f spans.old result spans.new }
{
    shelf::shelf_plan_spans(k, r, t, l, stripes, f, spans)
}
