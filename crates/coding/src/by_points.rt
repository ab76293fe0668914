// Encoding of stripes given by check equations: the constants of the shape, times the data columns.
ghost use Rattle.std.specs.Prelude.{◌≡◌, true, ◌*◌, ◌≤◌, length};
ghost use Rattle.stripe.specs.Stripe.{by_points, parity};
ghost use Rattle.coding.specs.Encode.{encode_refusal};

use constants::{MOST_CONSTANTS, encoding, in_order};
use matrix::apply;
use stripe::Shape;

// The parity of the data. The constants take not much more room than they need.
pub(crate) fn fill_by_points(s: Shape, data: &[u8], out: &mut [u8])
    requires { (encode_refusal s (length «data».now) (length out.old) ≡ 0) × (by_points s ≡ true) }
    ensures { out.new ≡ parity s «data».now }
{
    if s.r * s.k <= 256 {
        fill_in_room::<256>(s, data, out);
    } else {
        fill_in_room::<MOST_CONSTANTS>(s, data, out);
    }
}

// The same of up to N constants.
fn fill_in_room<const N: usize>(s: Shape, data: &[u8], out: &mut [u8])
    requires { (encode_refusal s (length «data».now) (length out.old) ≡ 0) × ((by_points s ≡ true)
        × ((s.r * s.k ≤ N) × (N ≤ 65536))) }
    ensures { out.new ≡ parity s «data».now }
{
    let mut w = [0u8; N];
    let room = &mut w[..];
    fill_by(s, data, &mut room[0..s.r * s.k], out);
}

// The same, with room for the constants.
fn fill_by(s: Shape, data: &[u8], w: &mut [u8], out: &mut [u8])
    requires { (encode_refusal s (length «data».now) (length out.old) ≡ 0) × ((by_points s ≡ true) × (length w.old ≡ s.r * s.k)) }
    ensures { out.new ≡ parity s «data».now }
{
    let k = s.k;
    let r = s.r;
    let l = s.l;
    encoding(k, r, w);
    let mut at = [0u8; 255];
    in_order(&mut at[0..k]);
    apply(r, &at[0..k], w, data, 0, l, l, out);
}
