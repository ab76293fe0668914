// The columns of a stripe put into a record.
ghost use Rattle.std.specs.Prelude.{◌≡◌, ◌+◌, ◌*◌, ◌≤◌, length};
ghost use Rattle.std.proofs.lemmas.List.Edits.{sets};
ghost use Rattle.record.specs.Layout.{kept, survivors};

use lanes::copy;
use stripe::is_lost;

// The surviving columns of a stripe of n, written one after the other from a place on. It packs what record's `fill_columns`
// spreads: a loop for both ways would be public, hence stop where a length does not fit, and each would show that it does not.
pub(crate) fn put_columns(
    stripe: &[u8],
    l: usize,
    n: usize,
    lost: &[u16],
    out: &mut [u8],
    first: usize,
)
    requires l_in_bounds { n * l ≤ length stripe.now }
    requires l_in_bounds_2 { first + kept lost.now 0 n * l ≤ length out.old }
    ensures { out.new ≡ sets out.old first (survivors l lost.now 0 n stripe.now) }
{
    let mut at = first;
    for c in 0..n {
        if !is_lost(lost, c) {
            let from = c * l;
            let end = at + l;
            copy(&mut out[at..end], &stripe[from..from + l]);
            at = end;
        }
    }
}
