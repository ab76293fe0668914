// The fold: N stripes of one shape become one wide stripe with f parity columns. It is lent the joined bytes of the plan alone.
#![tactic(auto)]

ghost use Rattle.std.specs.Prelude.{◌≡◌, ◌*◌, length};
ghost use Rattle.stripe.specs.Refusal.{refusal_of};
ghost use Rattle.plan.specs.Plan.{fold_refusal, bytes_read};
ghost use Rattle.fold.specs.Fold.{fold_of, fold_verdict, fold_filled};

use coding::encode::encode_by_rows;
use plan::counts::bytes_read;
use plan::{Kind, fold_refusal, kind_of, wide_shape};
use stripe::refusal::Refusal;
use stripe::{MOST_ROWS, Shape};

mod by_points;
mod plain;
mod runs;
mod shares;
mod stripes;

// What a fold that is lent a bytes to read and b to fill is refused for: the fold's own refusal, else `Buffer` for another length than
// stated.
fn fold_verdict(s: Shape, stripes: usize, f: usize, a: usize, b: usize) -> Result<(), Refusal>
    ensures { refusal_of result ≡ fold_verdict s stripes f a b }
{
    fold_refusal(s, stripes, f)?;
    if !bytes_read(s, stripes, f).is(a) {
        return Err(Refusal::Buffer);
    }
    if b != f * s.l {
        return Err(Refusal::Buffer);
    }
    Ok(())
}

// The fold: from the joined bytes of the plan the f parity columns of the wide stripe. A refusal writes nothing.
pub fn fold(
    s: Shape,
    stripes: usize,
    f: usize,
    read: &[u8],
    parity: &mut [u8],
) -> Result<(), Refusal>
    ensures { (refusal_of result ≡ fold_verdict s stripes f (length read.now) (length parity.old))
        × (parity.new ≡ fold_filled s stripes f read.now parity.old) }
{
    fold_verdict(s, stripes, f, read.len(), parity.len())?;
    fill(s, stripes, f, read, parity);
    Ok(())
}

// The parity columns of the wide stripe. Kind C reads all the data, so it is the encoding of the wide stripe. The stripes are by points
// where they have more than MOST_ROWS parity columns. Many stripes of kind A go row by row, where the last row gains by it. What takes
// stack is called from two arms each: so it has a frame of its own, and no way pays for the others.
// Shape, N and f as one struct would stand before each name of the clauses, and each asks for the lengths of what is lent besides.
fn fill(s: Shape, stripes: usize, f: usize, read: &[u8], parity: &mut [u8])
    requires { (fold_refusal s stripes f ≡ 0) × ((length read.now ≡ bytes_read s stripes f) × (length parity.old ≡ f * s.l)) }
    ensures { parity.new ≡ fold_of s stripes f read.now }
{
    let kind = kind_of(s, f);
    match kind {
        Kind::A => {
            if MOST_ROWS < s.r {
                by_points::fill_by_points(s, stripes, read, parity);
                return;
            }
            let e = plain::last_exponent(s, f);
            if plain::beats_products(e, stripes, s.l) {
                plain::fill_plain(s, stripes, f, read, parity);
                return;
            }
            if plain::beats_shifts(e, stripes, s.l) {
                plain::fill_plain(s, stripes, f, read, parity);
                return;
            }
            stripes::fill_parity(s, stripes, f, read, parity);
        }
        Kind::B => stripes::fill_parity(s, stripes, f, read, parity),
        Kind::C => {
            if MOST_ROWS < s.r {
                by_points::fill_by_points(s, stripes, read, parity);
                return;
            }
            encode_by_rows(wide_shape(s, stripes, f), read, parity);
        }
    }
}
