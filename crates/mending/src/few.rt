// The lost positions of a stripe by rows: a record that is as small as rows are few, so that it stays in registers.
ghost use Rattle.std.specs.Prelude.{◌≡◌, ℕ, ◌<◌, length, get_or};
ghost use Rattle.stripe.specs.Shape.{most_rows};

use lost::Lost;
use stripe::MOST_ROWS;

// Up to MOST_ROWS lost positions, ascending, and their number; zero stands after the last. No slice: it travels by
// value, and there is no heap to hold one.
#[derive(Clone, Copy)]
pub struct Few {
    pub at: [usize; MOST_ROWS],
    pub count: usize,
}

// The first positions of a record, and its number. With `copy_from_slice` a call of 64 bytes a column takes up to a twentieth longer.
pub(crate) fn few_of(lost: Lost) -> Few
    ensures { (length result.at ≡ most_rows)
        × ((result.count ≡ lost.count) × ((v : ℕ) → v < most_rows → get_or result.at v 0 ≡ get_or lost.at v 0)) }
{
    let all = lost.at;
    let count = lost.count;
    let mut at = [0usize; MOST_ROWS];
    for v in 0..MOST_ROWS {
        at[v] = all[v];
    }
    Few { at, count }
}
