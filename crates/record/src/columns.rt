// The columns of a record put in their places of a stripe.
ghost use Rattle.std.specs.Prelude.{◌≡◌, ◌*◌, ◌≤◌, length};
ghost use Rattle.record.specs.Layout.{kept, restored};

use lanes::copy;
use stripe::is_lost;

// The surviving columns of n, which stand one after the other, put in their places of a stripe. With c * l in place of `to`, and std's
// `any` in place of the loop of `is_lost`, many short columns took up to half as long again.
pub(crate) fn fill_columns(from: &[u8], l: usize, n: usize, lost: &[u16], stripe: &mut [u8])
    requires l_in_bounds { n * l ≤ length stripe.old }
    requires l_in_bounds_2 { kept lost.now 0 n * l ≤ length from.now }
    ensures { stripe.new ≡ restored l lost.now 0 n from.now stripe.old }
{
    let mut at = 0;
    let mut to = 0;
    for c in 0..n {
        let next = to + l;
        if !is_lost(lost, c) {
            let end = at + l;
            copy(&mut stripe[to..next], &from[at..end]);
            at = end;
        }
        to = next;
    }
}
