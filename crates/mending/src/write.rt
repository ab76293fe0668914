// The lost columns, each plus what it lacks.
ghost use Rattle.std.specs.Prelude.{◌≡◌, ◌≤◌, length};
ghost use Rattle.stripe.specs.Shape.{stripe_length, most_rows};
ghost use Rattle.mending.specs.Scratch.{Buffers, slot_row, MendedBelow};

use crate::system::System;
use lanes::add;
use stripe::Shape;

// To each lost column the row of the slots that holds what it lacks.
pub(crate) fn write(s: Shape, p: System, slots: &[u8], stripe: &mut [u8])
    requires { Buffers s p (length slots.now) × (length stripe.old ≡ stripe_length s) }
    ensures { MendedBelow s p p.lost.count slots.now stripe.old stripe.new }
{
    let l = s.l;
    let lost = p.lost;
    let at = lost.at;
    for v in 0..lost.count {
        let i = at[v];
        let c = i * l;
        let e = c + l;
        let a = slot_row(s, p, v, i) * l;
        let f = a + l;
        add(&mut stripe[c..e], &slots[a..f]);
    }
}

// The row of the slots for lost column v, at position i.
fn slot_row(s: Shape, p: System, v: usize, i: usize) -> usize
    requires { (p.first ≤ most_rows) × ((p.step ≤ most_rows) × ((v ≤ most_rows) × (p.count ≤ v → s.k ≤ i))) }
    ensures { result ≡ slot_row s p v i }
{
    if v < p.count {
        return p.first + p.step * v;
    }
    i - s.k
}
