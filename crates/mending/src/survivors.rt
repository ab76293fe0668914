// Which of the lost columns are data, and which rows survive.
ghost use Rattle.std.specs.Prelude.{◌≡◌, ◌≤◌, take};
ghost use Rattle.stripe.specs.Stripe.{among, Ascending};
ghost use Rattle.stripe.specs.Shape.{most_data, most_rows};
ghost use Rattle.stripe.proofs.Lost.{lost_data, row_lost};
ghost use Rattle.stripe.proofs.Survivors.{first_row, row_step};
ghost use Rattle.mending.specs.Few.{few_list};

use crate::few::Few;

// Whether position c is lost. With `contains` a call of 64 bytes a column takes up to a tenth longer.
pub(crate) fn is_lost(lost: Few, c: usize) -> bool
    requires { lost.count ≤ most_rows }
    ensures { result ≡ among c (few_list lost) }
{
    let at = lost.at;
    let count = lost.count;
    for v in 0..count {
        if at[v] == c {
            return true;
        }
    }
    false
}

// How many data columns are lost: their positions, below k, stand first. To filter and count them takes a call up to a twentieth longer.
pub(crate) fn data_lost(lost: Few, k: usize, n: usize) -> usize
    requires { (lost.count ≤ most_rows) × Ascending 0 n (few_list lost) }
    ensures { (result ≤ lost.count) × (take result lost.at ≡ lost_data k (few_list lost)) }
{
    let at = lost.at;
    let count = lost.count;
    for v in 0..count {
        if k <= at[v] {
            return v;
        }
    }
    count
}

// The first row that survives, where one does.
pub(crate) fn first_row(lost: Few, k: usize) -> usize
    requires { (lost.count ≤ most_rows) × (k ≤ most_data) }
    ensures { result ≡ first_row (row_lost k (few_list lost)) }
{
    if is_lost(lost, k) {
        if is_lost(lost, k + 1) {
            return 2;
        }
        return 1;
    }
    0
}

// How far the next one that survives is.
pub(crate) fn row_step(lost: Few, k: usize) -> usize
    requires { (lost.count ≤ most_rows) × (k ≤ most_data) }
    ensures { result ≡ row_step (row_lost k (few_list lost)) }
{
    if is_lost(lost, k) {
        return 1;
    }
    if is_lost(lost, k + 1) {
        return 2;
    }
    1
}
