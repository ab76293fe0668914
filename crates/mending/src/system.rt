// What is solved, once for all places: which lost columns are unknown, which rows are the equations, and the powers of g that belong
// to them.
ghost use Rattle.std.specs.Prelude.{◌≡◌, ◌-◌, ◌*◌, ◌<◌, length, get_or, take};
ghost use Rattle.stripe.proofs.Errors.{points};
ghost use Rattle.field.specs.Field.{gpow};
ghost use Rattle.mending.specs.Restore.{ReadyRows};
ghost use Rattle.mending.specs.System.{PivotOf, Posed, Counted, less};
ghost use Rattle.stripe.specs.Shape.{most_rows};

use crate::few::Few;
use crate::survivors::{data_lost, first_row, row_step};
use field::Gf;
use stripe::{MOST_ROWS, Shape};

// The first `count` lost positions are data columns, counted from `pivot` on; rows first, first + step, .. are solved by.
#[derive(Clone, Copy)]
pub struct System {
    pub lost: Few,
    pub count: usize,
    pub pivot: usize,
    pub first: usize,
    pub step: usize,
}

// The system for a stripe of which a record's columns are lost.
pub(crate) fn system_of(s: Shape, lost: Few) -> System
    requires { ReadyRows s lost }
    ensures { (result.lost ≡ lost) × Posed s result }
{
    let k = s.k;
    let r = s.r;
    let count = data_lost(lost, k, k + r);
    let first = first_row(lost, k);
    let step = row_step(lost, k);
    let at = lost.at;
    let pivot = pivot_of(s.t, count, lost.count, at[0]);
    System {
        lost,
        count,
        pivot,
        first,
        step,
    }
}

// The first of the lost columns, where the stripe is plain and all of them are data columns, so that its weights are 1; else 0.
fn pivot_of(t: usize, count: usize, all: usize, first: usize) -> usize
    ensures { PivotOf t count all first result }
{
    if t != 0 {
        return 0;
    }
    if count != all {
        return 0;
    }
    if count == 0 {
        return 0;
    }
    first
}

// g^((i - x) * j) for each lost data column i. Every entry is set, whatever their number: so the compiler keeps the array in registers.
pub(crate) fn row_weights(p: System, x: usize, j: usize) -> [u8; MOST_ROWS]
    requires { Counted p x j }
    ensures { (length result ≡ most_rows) × (take p.count result ≡ points j (less x (take p.count p.lost.at))) }
{
    let mut w = [0u8; MOST_ROWS];
    for v in 0..MOST_ROWS {
        w[v] = row_weight(p, x, j, v);
    }
    w
}

// The same for lost data column number v alone, where there are as many.
fn row_weight(p: System, x: usize, j: usize, v: usize) -> u8
    requires { Counted p x j }
    ensures { v < p.count → result ≡ gpow ((get_or p.lost.at v 0 - x) * j) }
{
    if p.count <= v {
        return 0;
    }
    let lost = p.lost;
    let at = lost.at;
    Gf::power((at[v] - x) * j).0
}
