// Columns judged by what they are computed to be, window by window.
ghost use Rattle.std.specs.Prelude.{◌≡◌, ℕ, ◌+◌, ◌*◌, ◌<◌, ◌≤◌, length, get_or};
ghost use Rattle.repair.specs.Windows.{Says, Lent, Window, Holds, Added, row_byte};

use crate::windows::places;
use lanes::{add, all_zero};
use matrix::apply;

// Whether each of these columns is what it is computed to be.
// The loop stands in `write` too: one function for both would take a closure and a clause for it, which is longer than the loop.
pub(crate) fn judge(
    w: &[u8],
    from: &[u8],
    spares: &[u8],
    l: usize,
    stripe: &[u8],
    made: &mut [u8],
) -> bool
    requires { Lent w.now from.now spares.now l (length stripe.now) × (length made.old ≡ 2048) }
    ensures { Says result
        (Holds (row_byte w.now from.now stripe.now l) spares.now l 0 l
        stripe.now) }
{
    let rows = spares.len();
    if rows < 1 {
        return true;
    }
    let step = places(rows);
    for at in (0..l).step_by(step) {
        let n = step.min(l - at);
        let m = rows * n;
        if !judge_window(w, from, spares, at, l, n, stripe, &mut made[0..m]) {
            return false;
        }
    }
    true
}

// The same of the n places from `at` on.
// `Lent` speaks of the stripe's length too, so a struct of the other parameters could not keep it.
fn judge_window(
    w: &[u8],
    from: &[u8],
    spares: &[u8],
    at: usize,
    l: usize,
    n: usize,
    stripe: &[u8],
    made: &mut [u8],
) -> bool
    requires { Lent w.now from.now spares.now l (length stripe.now) × Window spares.now l at n (length made.old) }
    ensures { Says result
        (Holds (row_byte w.now from.now stripe.now l) spares.now l at (at + n)
        stripe.now) }
{
    apply(spares.len(), from, w, stripe, at, l, n, made);
    add_columns(made, spares, stripe, at, l, n);
    all_zero(made)
}

// To each row of n bytes the n bytes from `at` on of its column.
// Its twin `put_columns` changes the stripe where this changes the rows, so they share no line but the bounds.
fn add_columns(rows: &mut [u8], columns: &[u8], stripe: &[u8], at: usize, l: usize, n: usize)
    requires { (length rows.old ≡ length columns.now * n) × ((at + n ≤ l)
        × ((v : ℕ) → v < length columns.now → get_or columns.now v 0 * l + l ≤ length stripe.now)) }
    ensures { Added columns.now (length columns.now) l at n stripe.now rows.old
        rows.new }
{
    for (v, c) in columns.iter().enumerate() {
        let a = v * n;
        let b = a + n;
        let o = usize::from(*c) * l + at;
        let e = o + n;
        add(&mut rows[a..b], &stripe[o..e]);
    }
}
