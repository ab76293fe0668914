// The fold of stripes given by check equations, from the columns read of them: the constants of the fold, times these columns.
ghost use Rattle.std.specs.Prelude.{◌≡◌, true, ◌*◌, ◌≤◌, length};
ghost use Rattle.stripe.specs.Stripe.{by_points};
ghost use Rattle.constants.specs.Constants.{most_constants};
ghost use Rattle.plan.specs.Plan.{fold_refusal};
ghost use Rattle.fold.specs.Fold.{fold_of};
ghost use Rattle.fold.specs.Shares.{ReadsColumns, read_columns, read_constants};

use constants::{MOST_CONSTANTS, encoding, folding, in_order};
use matrix::apply;
use stripe::Shape;

// How many columns are read of each stripe: its parity columns, or its data columns where they are fewer.
fn read_columns(s: Shape) -> usize
    ensures { result ≡ read_columns s }
{
    s.k.min(s.r)
}

// The constants. Of data columns they are those of the encoding of the wide stripe.
fn fill_constants(s: Shape, stripes: usize, w: &mut [u8])
    requires { (fold_refusal s stripes s.r ≡ 0) × ((by_points s ≡ true) × (length w.old ≡ s.r * (stripes * read_columns s))) }
    ensures { w.new ≡ read_constants s stripes }
{
    let k = s.k;
    let r = s.r;
    if k < r {
        encoding(stripes * k, r, w);
        return;
    }
    folding(k, r, stripes, w);
}

// The parity columns of the wide stripe, by the constants.
fn fill_columns(s: Shape, stripes: usize, w: &[u8], read: &[u8], parity: &mut [u8])
    requires { ReadsColumns s stripes (length read.now) (length parity.old) × (w.now ≡ read_constants s stripes) }
    ensures { parity.new ≡ fold_of s stripes s.r read.now }
{
    let r = s.r;
    let l = s.l;
    let m = stripes * read_columns(s);
    let mut at = [0u8; 255];
    in_order(&mut at[0..m]);
    apply(r, &at[0..m], w, read, 0, l, l, parity);
}

// The parity columns of the wide stripe, with so much room for the constants. What makes them is apart, so that its own room is free again
// before the columns are gone over.
fn fill_in<const ROOM: usize>(s: Shape, stripes: usize, read: &[u8], parity: &mut [u8])
    requires room { (s.r * (stripes * read_columns s) ≤ ROOM) × (ROOM ≤ most_constants) }
    requires lent { ReadsColumns s stripes (length read.now) (length parity.old) }
    ensures { parity.new ≡ fold_of s stripes s.r read.now }
{
    let m = stripes * read_columns(s);
    let size = s.r * m;
    let mut w = [0u8; ROOM];
    fill_constants(s, stripes, &mut w[..size]);
    fill_columns(s, stripes, &w[..size], read, parity);
}

// The parity columns of the wide stripe. The constants take not much more room than they need.
pub(crate) fn fill_by_points(s: Shape, stripes: usize, read: &[u8], parity: &mut [u8])
    requires { ReadsColumns s stripes (length read.now) (length parity.old) }
    ensures { parity.new ≡ fold_of s stripes s.r read.now }
{
    let m = stripes * read_columns(s);
    let size = s.r * m;
    if size <= 256 {
        fill_in::<256>(s, stripes, read, parity);
    } else {
        fill_in::<MOST_CONSTANTS>(s, stripes, read, parity);
    }
}
