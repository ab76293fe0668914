// Columns written as they are computed, window by window.
ghost use Rattle.std.specs.Prelude.{◌≡◌, ℕ, ◌+◌, ◌-◌, ◌*◌, ◌<◌, ◌≤◌, length, get_or};
ghost use Rattle.repair.specs.Windows.{Lent, Window, Distinct, Put, row_byte};

use crate::windows::places;
use matrix::apply;

// Each of these columns as it is computed.
pub(crate) fn write(w: &[u8], from: &[u8], to: &[u8], l: usize, stripe: &mut [u8], made: &mut [u8])
    requires { Lent w.now from.now to.now l (length stripe.old)
        × (Distinct to.now × (length made.old ≡ 2048)) }
    ensures { Put (row_byte w.now from.now stripe.old l) to.now
        (length to.now) l 0 l stripe.old stripe.new }
{
    let rows = to.len();
    if rows < 1 {
        return;
    }
    let step = places(rows);
    for at in (0..l).step_by(step) {
        let n = step.min(l - at);
        let m = rows * n;
        write_window(w, from, to, at, l, n, stripe, &mut made[0..m]);
    }
}

// The same at the n places from `at` on.
fn write_window(
    w: &[u8],
    from: &[u8],
    to: &[u8],
    at: usize,
    l: usize,
    n: usize,
    stripe: &mut [u8],
    made: &mut [u8],
)
    requires { Lent w.now from.now to.now l (length stripe.old)
        × (Distinct to.now × Window to.now l at n (length made.old)) }
    ensures { Put (row_byte w.now from.now stripe.old l) to.now
        (length to.now) l at (at + n) stripe.old stripe.new }
{
    apply(to.len(), from, w, stripe, at, l, n, made);
    put_columns(made, to, stripe, at, l, n);
}

// To the n bytes from `at` on of each column its row.
fn put_columns(rows: &[u8], columns: &[u8], stripe: &mut [u8], at: usize, l: usize, n: usize)
    requires { (length rows.now ≡ length columns.now * n) × ((at + n ≤ l) × (Distinct columns.now
        × ((v : ℕ) → v < length columns.now → get_or columns.now v 0 * l + l ≤ length stripe.old))) }
    ensures { Put (λ v p. get_or rows.now (v * n + (p - at)) 0) columns.now (length columns.now)
        l at (at + n) stripe.old stripe.new }
{
    for (v, c) in columns.iter().enumerate() {
        let a = v * n;
        let b = a + n;
        let o = usize::from(*c) * l + at;
        let e = o + n;
        stripe[o..e].copy_from_slice(&rows[a..b]);
    }
}
