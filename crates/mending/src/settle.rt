// The rows that are not solved by: with the errors added, one that survives must lack nothing, and one that is lost holds what it lacks.
ghost use Rattle.std.specs.Prelude.{◌≡◌, false, ℕ, ◌+◌, ◌*◌, ◌≤◌, ◌<◌, length, get_or};
ghost use Rattle.stripe.specs.Stripe.{among};
ghost use Rattle.stripe.specs.Shape.{most_data, most_rows};
ghost use Rattle.syndromes.specs.Syndromes.{Says};
ghost use Rattle.mending.specs.Few.{few_list};
ghost use Rattle.mending.specs.System.{Solver};
ghost use Rattle.mending.specs.Scratch.{Buffers, Settles, RowSettles};

use crate::run::add_row;
use crate::survivors::is_lost;
use crate::system::System;
use lanes::all_zero;
use stripe::Shape;

// Whether each row that survives lacks nothing.
pub(crate) fn settle(s: Shape, p: System, slots: &mut [u8]) -> bool
    requires { Buffers s p (length slots.old) }
    ensures { Settles s p slots.old result slots.new }
{
    let r = s.r;
    for j in 0..r {
        if !settle_row(s, p, j, slots) {
            return false;
        }
    }
    true
}

// Whether row j is one of those solved by, or is lost, or lacks nothing.
fn settle_row(s: Shape, p: System, j: usize, slots: &mut [u8]) -> bool
    requires { Buffers s p (length slots.old) × (j < s.r) }
    ensures { RowSettles s p j slots.old result slots.new }
{
    if solves(p, j) {
        return true;
    }
    let l = s.l;
    add_row(s, p, p.pivot, j, slots, j * l, 0, l);
    clean(s, p, j, slots)
}

// Whether row j is one of those solved by.
fn solves(p: System, j: usize) -> bool
    requires { (p.count ≤ most_rows) × ((p.first ≤ most_rows) × (p.step ≤ most_rows)) }
    ensures { Says result (Solver p j) }
{
    for v in 0..p.count {
        if p.first + p.step * v == j {
            return true;
        }
    }
    false
}

// Whether row j is lost or zero.
fn clean(s: Shape, p: System, j: usize, slots: &[u8]) -> bool
    requires { (p.lost.count ≤ most_rows) × ((s.k ≤ most_data) × ((j < most_rows) × (j * s.l + s.l ≤ length slots.now))) }
    ensures { Says result
        (among (s.k + j) (few_list p.lost) ≡ false → (y : ℕ) → y < s.l → get_or slots.now (j * s.l + y) 0 ≡ 0) }
{
    let l = s.l;
    if is_lost(p.lost, s.k + j) {
        return true;
    }
    let a = j * l;
    let e = a + l;
    all_zero(&slots[a..e])
}
