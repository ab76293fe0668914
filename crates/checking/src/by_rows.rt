// The check of stripes by rows. The parity of the data is encoded into a local buffer, and the two are compared whole. A buffer is cleared
// before it is filled, so a small stripe takes a small one; each stands in a function of its own, so that they share room on the stack.
ghost use Rattle.std.specs.Prelude.{◌≡◌, false, ◌≤◌, length};
ghost use Rattle.stripe.specs.Stripe.{by_points, parity};
ghost use Rattle.checking.specs.Compare.{first_difference};

use crate::compare::difference;
use crate::lent::Lent;
use coding::encode::encode_by_rows;
use stripe::MOST_ROWS_LENGTH;

// The most bytes of parity that take a small buffer.
pub(crate) const SMALL: usize = 192;

// The first index at which the parity lent differs from the parity of the data, or its length.
#[inline(never)]
pub(crate) fn first_by_rows(lent: &Lent) -> usize
    requires { by_points lent.now.shape ≡ false }
    ensures { result ≡ first_difference lent.now.parity.now (parity lent.now.shape lent.now.«data».now) }
{
    let n = lent.parity.len();
    if n <= SMALL {
        return in_room::<SMALL>(lent);
    }
    if n <= 1536 {
        return in_room::<1536>(lent);
    }
    in_room::<MOST_ROWS_LENGTH>(lent)
}

// The same of up to N bytes of parity.
pub(crate) fn in_room<const N: usize>(lent: &Lent) -> usize
    requires { (by_points lent.now.shape ≡ false) × ((length lent.now.parity.now ≤ N) × (N ≤ 65536)) }
    ensures { result ≡ first_difference lent.now.parity.now (parity lent.now.shape lent.now.«data».now) }
{
    let n = lent.parity.len();
    let mut made = [0u8; N];
    let room = &mut made[..];
    compared(lent, &mut room[0..n])
}

// The first difference, found beside the parity of the data in a buffer as long as the parity lent.
fn compared(lent: &Lent, made: &mut [u8]) -> usize
    requires { (by_points lent.now.shape ≡ false) × (length made.old ≡ length lent.now.parity.now) }
    ensures { result ≡ first_difference lent.now.parity.now (parity lent.now.shape lent.now.«data».now) }
{
    encode_by_rows(lent.shape, lent.data, made);
    difference(lent.parity, made)
}
