// Sums of powers solved at the n places of slots together, in place: the first point is taken out of the sums, the others are solved,
// and the first value is what the first sum lacks. The others are fewer, so the compiler makes a function for each number of points, and
// none calls itself: that lets it put them into their caller, which short columns gain most by. `at`, `d` and `n` travel one by one: as a
// record each call would take them apart.
ghost use Rattle.std.specs.Prelude.{◌≡◌, ℕ, ◌+◌, ◌≤◌, ◌<◌, length, get_or};
ghost use Rattle.field.specs.Field.{◌⊕◌, ◌⊗◌};
ghost use Rattle.mending.specs.Slots.{Spaced, Cleared, First, SetApart, Solved};
ghost use Rattle.stripe.specs.Shape.{most_rows};

use crate::gather::gather;
use crate::scalars::product;
use field::Gf;
use products::scale_all;
use products::within::mix;
use stripe::MOST_ROWS;

// The values that have the sums, in place of the sums; at most MOST_ROWS.
pub(crate) fn solve_slots(
    points: &[u8],
    weights: &[u8],
    slots: &mut [u8],
    at: usize,
    d: usize,
    n: usize,
)
    requires { Spaced (length points.now) at d n (length slots.old) × (length weights.now ≡ length points.now) }
    ensures { Solved points.now weights.now at d n slots.old slots.new }
{
    More::<More<One>>::solve(points, weights, slots, at, d, n)
}

// The same of so many points at most.
trait Solve {
    ghost most: { ℕ };

    fn solve(points: &[u8], weights: &[u8], slots: &mut [u8], at: usize, d: usize, n: usize)
        requires { Spaced (length points.now) at d n (length slots.old)
            × ((length weights.now ≡ length points.now) × (length points.now ≤ most)) }
        ensures { Solved points.now weights.now at d n slots.old slots.new };
}

// One point.
struct One;

// One point more than S.
struct More<S>(S);

impl Solve for One {
    ghost most = { 1 };

    fn solve(points: &[u8], weights: &[u8], slots: &mut [u8], at: usize, d: usize, n: usize) {
        if points.len() == 0 {
            return;
        }
        first_value(weights, slots, at, d, n);
    }
}

impl<S: Solve> Solve for More<S> {
    ghost most = { S.most + 1 };

    fn solve(points: &[u8], weights: &[u8], slots: &mut [u8], at: usize, d: usize, n: usize) {
        let e = points.len();
        if e == 0 {
            return;
        }
        clear(points[0], e, slots, at, d, n);
        let w = set_apart(points, weights);
        let f = e - 1;
        S::solve(&points[1..], &w[..f], slots, at + d, d, n);
        first_value(weights, slots, at, d, n);
    }
}

// Each slot but the first plus c times the slot before.
fn clear(c: u8, e: usize, slots: &mut [u8], at: usize, d: usize, n: usize)
    requires { Spaced e at d n (length slots.old) × (0 < e) }
    ensures { Cleared c e at d n slots.old slots.new }
{
    for u in (1..e).rev() {
        let to = at + u * d;
        mix(slots, to, to - d, n, c);
    }
}

// The weights but the first, each times what its point is apart from the first. Every entry is set, as in `row_weights`.
fn set_apart(points: &[u8], weights: &[u8]) -> [u8; MOST_ROWS]
    requires { (length points.now ≤ most_rows) × (length weights.now ≡ length points.now) }
    ensures { SetApart points.now weights.now result }
{
    let mut w = [0u8; MOST_ROWS];
    for v in 0..MOST_ROWS {
        w[v] = weight_apart(points, weights, v + 1);
    }
    w
}

// The weight of point number v times what that is apart from the first, where there are as many.
fn weight_apart(points: &[u8], weights: &[u8], v: usize) -> u8
    requires { length weights.now ≡ length points.now }
    ensures { v < length points.now
        → result ≡ get_or weights.now v 0 ⊗ (get_or points.now v 0 ⊕ get_or points.now 0 0) }
{
    if points.len() <= v {
        return 0;
    }
    product(weights[v], points[v] ^ points[0])
}

// The first slot and the others by their weights, times the inverse of the first weight.
fn first_value(weights: &[u8], slots: &mut [u8], at: usize, d: usize, n: usize)
    requires { Spaced (length weights.now) at d n (length slots.old) × (0 < length weights.now) }
    ensures { First weights.now at d n slots.old slots.new }
{
    gather(&weights[1..], slots, at, at + d, d, n);
    let w = weights[0];
    if w == 1 {
        return;
    }
    let i = Gf(w).inverse();
    let e = at + n;
    scale_all(&mut slots[at..e], i.0);
}
