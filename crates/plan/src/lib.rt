// The plan of a fold: N stripes of one shape become one wide stripe with f parity columns. The plan says which bytes a fold reads;
// module `counts` says how many, and how many it writes. Every function is total: what is refused reads and writes nothing.
#![tactic(auto)]

ghost use Rattle.std.specs.Prelude.{◌≡◌, ◌*◌, ◌<◌, ◌≤◌};
ghost use Rattle.stripe.specs.Shape.{shape_refusal, most_data, most_parity, most_columns};
ghost use Rattle.stripe.specs.Refusal.{refusal_of};
ghost use Rattle.plan.specs.Plan.{fold_refusal, stripes_allowed, new_allowed, kind_of};
ghost use Rattle.plan.specs.Plan.{columns_each, columns_read, column_span, span_at, wide_answer};

use crate::counts::{columns_each, columns_read};
use stripe::refusal::Refusal;
use stripe::{MOST_DATA, MOST_POINTS, MOST_ROWS, Shape};

pub mod counts;

// The kinds of folds. A reads parity columns, B runs of the data and the parity, C the data.
#[derive(Clone, Copy)]
pub enum Kind {
    A,
    B,
    C,
}

// The bytes that a plan reads of one column: its stripe and position, the offset of the first byte in the column, and how many.
#[repr(C)]
#[derive(Clone, Copy)]
pub struct Span {
    pub stripe: u32,
    pub position: u32,
    pub first: u32,
    pub length: u32,
}

// Refused as the shape is, else as `Stripes` where the number of stripes is not allowed, else as `NewParity` where f is not.
pub fn fold_refusal(s: Shape, stripes: usize, f: usize) -> Result<(), Refusal>
    ensures { refusal_of result ≡ fold_refusal s stripes f }
{
    s.refusal()?;
    if !stripes_allowed(s.k, s.r, stripes) {
        return Err(Refusal::Stripes);
    }
    if !new_allowed(s.r, s.t, f) {
        return Err(Refusal::NewParity);
    }
    Ok(())
}

// Whether n is 2 to 255 with n * k at most 255 and, if r is above 3, n * k + r at most 255.
fn stripes_allowed(k: usize, r: usize, n: usize) -> bool
    requires { (k ≤ most_data) × (r ≤ most_parity) }
    ensures { result ≡ stripes_allowed k r n }
{
    if n < 2 {
        return false;
    }
    if 255 < n {
        return false;
    }
    let wide = n * k;
    if MOST_DATA < wide {
        return false;
    }
    if r <= MOST_ROWS {
        return true;
    }
    wide + r <= MOST_POINTS
}

// Whether f is 1 to 3 and, if t is not 0, f is t; if r is above 3, whether f is r.
fn new_allowed(r: usize, t: usize, f: usize) -> bool
    ensures { result ≡ new_allowed r t f }
{
    if MOST_ROWS < r {
        return f == r;
    }
    if f < 1 {
        return false;
    }
    if MOST_ROWS < f {
        return false;
    }
    if t == 0 {
        return true;
    }
    f == t
}

// The kind of a fold of stripes of this shape.
pub fn kind_of(s: Shape, f: usize) -> Kind
    ensures { result ≡ kind_of s f }
{
    if s.t != 0 {
        return Kind::B;
    }
    if s.r < f {
        return Kind::C;
    }
    if s.k < f {
        return Kind::C;
    }
    Kind::A
}

// The span of the column that is number i of those read of stripe n.
fn column_span(s: Shape, f: usize, n: usize, i: usize) -> Span
    requires { (shape_refusal s ≡ 0) × ((n ≤ 255) × (i ≤ most_columns)) }
    ensures { result ≡ column_span (kind_of s f) s n i }
{
    let k = s.k;
    let r = s.r;
    let t = s.t;
    let l = s.l;
    let kind = kind_of(s, f);
    match kind {
        Kind::A => span_of(n, k + i, 0, l),
        Kind::B => {
            if i < k {
                span_of(n, i, r * (l / t), (t - r) * (l / t))
            } else {
                span_of(n, i, 0, l)
            }
        }
        Kind::C => span_of(n, i, 0, l),
    }
}

// The span of these numbers.
fn span_of(stripe: usize, position: usize, first: usize, length: usize) -> Span
    requires { (stripe < 65536) × ((position < 65536) × ((first < 65536) × (length < 65536))) }
    ensures { result ≡ record { stripe = stripe; position = position; first = first; length = length } }
{
    Span {
        stripe: stripe as u32,
        position: position as u32,
        first: first as u32,
        length: length as u32,
    }
}

// Span number i of the plan, and a span of no bytes, no Option, where the plan has none (`span_at`).
pub fn span_at(s: Shape, stripes: usize, f: usize, i: usize) -> Span
    ensures { result ≡ span_at s stripes f i }
{
    if columns_read(s, stripes, f).number() <= i {
        return span_of(0, 0, 0, 0);
    }
    let each = columns_each(s, f).number();
    column_span(s, f, i / each, i % each)
}

// The shape of the wide stripe; where the fold is refused a shape of no columns, which is never allowed, and no Option (`wide_answer`).
pub fn wide_shape(s: Shape, stripes: usize, f: usize) -> Shape
    ensures { result ≡ wide_answer s stripes f }
{
    if fold_refusal(s, stripes, f).is_err() {
        return Shape::new(0, 0, 0, 0);
    }
    Shape::new(stripes * s.k, f, 0, s.l)
}
