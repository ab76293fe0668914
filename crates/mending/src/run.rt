// Run by run, the errors of the lost data columns in place of what the rows to solve by lack.
// A shape, its system and the slots travel one by one: in one value, that they fit (`Buffers`) would be shown anew after each write.
ghost use Rattle.std.specs.Prelude.{◌≡◌, ◌+◌, ◌*◌, ◌≤◌, ◌<◌, length};
ghost use Rattle.stripe.specs.Shape.{most_rows, most_rows_length};
ghost use Rattle.stripe.specs.Stripe.{runs, run_length};
ghost use Rattle.stripe.proofs.Errors.{points as powers};
ghost use Rattle.mending.specs.Slots.{Sources, Gathered};
ghost use Rattle.mending.specs.System.{less, gone};
ghost use Rattle.mending.specs.Scratch.{Buffers, Carried, RunsSolved};

use crate::gather::gather;
use crate::solve::solve_slots;
use crate::system::{System, row_weights};
use stripe::Shape;

// All runs from the first on.
pub(crate) fn solve_runs(s: Shape, p: System, slots: &mut [u8])
    requires { Buffers s p (length slots.old) }
    ensures { RunsSolved s p slots.old slots.new }
{
    let count = p.count;
    let points = row_weights(p, p.pivot, p.step);
    let weights = row_weights(p, p.pivot, p.first);
    let n = s.runs();
    let m = s.run_length();
    let l = s.l;
    let at = p.first * l;
    let d = p.step * l;
    for b in 0..n {
        carry(s, m, p, b, slots);
        solve_slots(&points[..count], &weights[..count], slots, at + b * m, d, m);
    }
}

// To each row of a run b >= r, row b of the errors of the run that its piggyback comes from.
fn carry(s: Shape, m: usize, p: System, b: usize, slots: &mut [u8])
    requires { Buffers s p (length slots.old) × ((m ≡ run_length s) × (b < runs s)) }
    ensures { Carried s p b s.r slots.old slots.new }
{
    let r = s.r;
    let l = s.l;
    if b < r {
        return;
    }
    for j in 0..r {
        add_row(s, p, 0, b, slots, j * l + b * m, j * m, m);
    }
}

// To the n bytes from `to` on, row j of the errors at the n places from `off` on, whose positions count from x on.
pub(crate) fn add_row(
    s: Shape,
    p: System,
    x: usize,
    j: usize,
    slots: &mut [u8],
    to: usize,
    off: usize,
    n: usize,
)
    requires { Buffers s p (length slots.old)
        × ((x ≤ p.pivot)
        × ((j < most_rows)
        × ((off ≤ most_rows_length) × Sources p.count to (p.first * s.l + off) (p.step * s.l) n (length slots.old)))) }
    ensures { Gathered (powers j (less x (gone s p))) to (p.first * s.l + off) (p.step * s.l) n slots.old
        slots.new }
{
    let l = s.l;
    let count = p.count;
    let w = row_weights(p, x, j);
    gather(&w[..count], slots, to, p.first * l + off, p.step * l, n);
}
