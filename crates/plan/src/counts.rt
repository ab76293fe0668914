// How much a fold reads and writes. Disks accessed and data transferred are counted apart: each is added only within its own kind. The
// field of each is this module's own, so that one is made only by counting a plan. Every function is total: what is refused reads and
// writes nothing, and is counted as 0, as C is told it (`columns_read` and the other definitions), and not as no count.
ghost use Rattle.std.specs.Prelude.{◌≡◌, ◌+◌, ◌≤◌, eqb};
ghost use Rattle.stripe.specs.Shape.{shape_refusal, most_parity};
ghost use Rattle.plan.specs.Plan.{kind_of, columns_each, bytes_each, columns_read, bytes_read, columns_written, bytes_written};
ghost use Rattle.plan.specs.Counts.{capped, bill_of};

use crate::{Kind, fold_refusal, kind_of};
use stripe::Shape;

// A number of columns.
#[repr(C)]
#[derive(Clone, Copy)]
pub struct Columns(u64);

// A number of bytes.
#[repr(C)]
#[derive(Clone, Copy)]
pub struct Bytes(u64);

// What is read, what is written, and their sum, in columns or in bytes.
#[derive(Clone, Copy)]
pub struct Moved<T> {
    pub read: T,
    pub written: T,
    pub sum: T,
}

// What a fold costs, columns and bytes apart.
#[derive(Clone, Copy)]
pub struct Bill {
    pub columns: Moved<Columns>,
    pub bytes: Moved<Bytes>,
}

impl Columns {
    // The sum, or 2^64-1 where it does not fit.
    pub fn plus(self, o: Columns) -> Columns
        ensures { result.0 ≡ capped (self.0 + o.0) }
    {
        Columns(self.0.saturating_add(o.0))
    }

    // How many columns, which is how many spans: the one way from a count to a number. `Bytes` has none.
    pub fn number(self) -> usize
        ensures { result ≡ self.0 }
    {
        let columns = self.0;
        columns as usize
    }
}

impl Bytes {
    // The sum, or 2^64-1 where it does not fit.
    pub fn plus(self, o: Bytes) -> Bytes
        ensures { result.0 ≡ capped (self.0 + o.0) }
    {
        Bytes(self.0.saturating_add(o.0))
    }

    // Whether an input of this length has so many bytes.
    pub fn is(self, length: usize) -> bool
        ensures { result ≡ eqb length self.0 }
    {
        length as u64 == self.0
    }
}

// How many columns are read of each stripe.
pub(crate) fn columns_each(s: Shape, f: usize) -> Columns
    requires { shape_refusal s ≡ 0 }
    ensures { result.0 ≡ columns_each (kind_of s f) s f }
{
    let kind = kind_of(s, f);
    match kind {
        Kind::A => Columns(f as u64),
        Kind::B => Columns(s.k as u64).plus(Columns(s.r as u64)),
        Kind::C => Columns(s.k as u64),
    }
}

// How many columns the plan reads; none where the fold is refused.
pub fn columns_read(s: Shape, stripes: usize, f: usize) -> Columns
    ensures { result.0 ≡ columns_read s stripes f }
{
    if fold_refusal(s, stripes, f).is_err() {
        return Columns(0);
    }
    Columns(stripes as u64 * columns_each(s, f).0)
}

// How many bytes are read of each stripe.
fn bytes_each(s: Shape, f: usize) -> Bytes
    requires { (shape_refusal s ≡ 0) × (f ≤ most_parity) }
    ensures { result.0 ≡ bytes_each (kind_of s f) s f }
{
    let k = s.k;
    let r = s.r;
    let t = s.t;
    let l = s.l;
    let kind = kind_of(s, f);
    match kind {
        Kind::A => Bytes((f * l) as u64),
        Kind::B => {
            let data = Bytes((k * ((t - r) * (l / t))) as u64);
            data.plus(Bytes((r * l) as u64))
        }
        Kind::C => Bytes((k * l) as u64),
    }
}

// How many bytes the plan reads, which is the length of the fold's input; none where the fold is refused.
pub fn bytes_read(s: Shape, stripes: usize, f: usize) -> Bytes
    ensures { result.0 ≡ bytes_read s stripes f }
{
    if fold_refusal(s, stripes, f).is_err() {
        return Bytes(0);
    }
    Bytes(stripes as u64 * bytes_each(s, f).0)
}

// How many columns the fold writes, those of the new parity; none where it is refused.
fn columns_written(s: Shape, stripes: usize, f: usize) -> Columns
    ensures { result.0 ≡ columns_written s stripes f }
{
    if fold_refusal(s, stripes, f).is_err() {
        return Columns(0);
    }
    Columns(f as u64)
}

// How many bytes the fold writes, L to a column; none where it is refused.
fn bytes_written(s: Shape, stripes: usize, f: usize) -> Bytes
    ensures { result.0 ≡ bytes_written s stripes f }
{
    if fold_refusal(s, stripes, f).is_err() {
        return Bytes(0);
    }
    Bytes((f * s.l) as u64)
}

// What the fold costs: read, written, and the sum of the two; nothing where it is refused.
pub fn bill_of(s: Shape, stripes: usize, f: usize) -> Bill
    ensures { result ≡ bill_of s stripes f }
{
    let columns = columns_read(s, stripes, f);
    let new_columns = columns_written(s, stripes, f);
    let bytes = bytes_read(s, stripes, f);
    let new_bytes = bytes_written(s, stripes, f);
    Bill {
        columns: Moved {
            read: columns,
            written: new_columns,
            sum: columns.plus(new_columns),
        },
        bytes: Moved {
            read: bytes,
            written: new_bytes,
            sum: bytes.plus(new_bytes),
        },
    }
}
