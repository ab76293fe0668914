// The check of a stripe: where its parity first disagrees with the parity by definition. First it is asked whether the parity agrees at
// all, and then, if it does not, where. With r up to 3 that is done in `by_rows`, and with r above 3 in `by_points`. Each of the two keeps
// a stack frame of its own (`inline(never)`), so their buffers never stand on the stack together.
#![tactic(auto)]

mod by_points;
mod by_rows;
mod compare;
mod lent;

ghost use Rattle.std.specs.Prelude.{◌≡◌, length};
ghost use Rattle.stripe.specs.Shape.{shape_refusal};
ghost use Rattle.stripe.specs.Stripe.{parity};
ghost use Rattle.checking.specs.Compare.{agree, first_difference};
ghost use Rattle.checking.specs.Check.{found, reported, where_is, first_wrong};

use crate::by_points::first_by_points;
use crate::by_rows::{SMALL, first_by_rows, in_room};
use crate::lent::Lent;
use stripe::column::lent_refusal;
use stripe::refusal::Refusal;
use stripe::{MOST_ROWS, Shape};

// A parity column and a place in it.
#[derive(Clone, Copy)]
pub struct Place {
    pub column: usize,
    pub place: usize,
}

// The first disagreement, by parity column and then by place, if there is one; or what is lent is refused.
pub fn first_wrong(s: Shape, data: &[u8], parity: &[u8]) -> Result<Option<Place>, Refusal>
    ensures { reported result ≡ first_wrong s «data».now parity.now }
{
    lent_refusal(s, data.len(), parity.len())?;
    let lent = Lent {
        shape: s,
        data,
        parity,
    };
    if agrees(&lent) {
        return Ok(None);
    }
    Ok(where_is(s, first(&lent)))
}

// Index n of the parity bytes as parity column and place, or nowhere if it is past the last.
fn where_is(s: Shape, n: usize) -> Option<Place>
    requires { shape_refusal s ≡ 0 }
    ensures { found result ≡ where_is s n }
{
    if s.r * s.l <= n {
        return None;
    }
    Some(Place {
        column: n / s.l,
        place: n % s.l,
    })
}

// Whether the parity lent agrees with the parity of the data. A small stripe is compared in the frame of the call.
fn agrees(lent: &Lent) -> bool
    ensures { result ≡ agree lent.now.parity.now (parity lent.now.shape lent.now.«data».now) }
{
    let n = lent.parity.len();
    if MOST_ROWS < lent.shape.r {
        return first_by_points(lent) == n;
    }
    if n <= SMALL {
        return in_room::<SMALL>(lent) == n;
    }
    first_by_rows(lent) == n
}

// The first index at which the parity lent differs from the parity of the data, or its length.
fn first(lent: &Lent) -> usize
    ensures { result ≡ first_difference lent.now.parity.now (parity lent.now.shape lent.now.«data».now) }
{
    if MOST_ROWS < lent.shape.r {
        return first_by_points(lent);
    }
    first_by_rows(lent)
}
