// Stripes: k data columns and r parity columns of l bytes each, plain or prepared to gain parity.
#![tactic(auto)]

pub mod column;
pub mod refusal;

ghost use Rattle.std.specs.Prelude.{◌≡◌, ◌≤◌, ◌&&◌};
ghost use Rattle.stripe.specs.Shape.{most_data, most_parity, data_allowed, parity_allowed, points_allowed, mark_allowed, length_allowed};
ghost use Rattle.stripe.specs.Shape.{shape_refusal};
ghost use Rattle.stripe.specs.Refusal.{refusal_of};
ghost use Rattle.stripe.specs.Stripe.{runs, run_length, among};

use crate::refusal::Refusal;

// The most data columns.
pub const MOST_DATA: usize = 255;
// The most parity columns whose parity is by rows.
pub const MOST_ROWS: usize = 3;
// The most parity columns of a stripe.
pub const MOST_PARITY: usize = 16;
// The most columns of a stripe with more than MOST_ROWS parity columns.
pub const MOST_POINTS: usize = 255;
// The most bytes of a column.
pub const MOST_LENGTH: usize = 4096;
// The most bytes of all parity columns by rows.
pub const MOST_ROWS_LENGTH: usize = MOST_ROWS * MOST_LENGTH;

// The numbers of a stripe: data columns, parity columns, the mark (0 for a plain stripe, else the parity count that the
// stripe is prepared to gain), and the bytes of a column. Values are made by `Shape::new` alone.
#[derive(Clone, Copy)]
pub struct Shape {
    pub k: usize,
    pub r: usize,
    pub t: usize,
    pub l: usize,
}

impl Shape {
    // The shape of these numbers, whether allowed or not.
    pub fn new(k: usize, r: usize, t: usize, l: usize) -> Shape
        ensures { (result.k ≡ k) × ((result.r ≡ r) × ((result.t ≡ t) × (result.l ≡ l))) }
    {
        Shape { k, r, t, l }
    }

    // Refused as `Shape` where k, r or t is not allowed, else as `Length` where l is not.
    pub fn refusal(self) -> Result<(), Refusal>
        ensures { refusal_of result ≡ shape_refusal self }
    {
        if !numbers_allowed(self.k, self.r, self.t) {
            return Err(Refusal::Shape);
        }
        if !length_allowed(self.t, self.l) {
            return Err(Refusal::Length);
        }
        Ok(())
    }

    // How many runs a column is cut into: t, or one if the stripe is plain.
    pub fn runs(self) -> usize
        ensures { result ≡ runs self }
    {
        if self.t == 0 { 1 } else { self.t }
    }

    // The bytes of a run.
    pub fn run_length(self) -> usize
        ensures { result ≡ run_length self }
    {
        self.l / self.runs()
    }
}

// Whether all three are allowed, each and together.
fn numbers_allowed(k: usize, r: usize, t: usize) -> bool
    ensures { result ≡ (data_allowed k && parity_allowed r && points_allowed k r && mark_allowed k r t) }
{
    data_allowed(k) && parity_allowed(r) && points_allowed(k, r) && mark_allowed(k, r, t)
}

// Whether k is 1 to 255.
fn data_allowed(k: usize) -> bool
    ensures { result ≡ data_allowed k }
{
    1 <= k && k <= MOST_DATA
}

// Whether r is 1 to 16.
fn parity_allowed(r: usize) -> bool
    ensures { result ≡ parity_allowed r }
{
    1 <= r && r <= MOST_PARITY
}

// Whether r is at most 3, or k + r at most 255.
fn points_allowed(k: usize, r: usize) -> bool
    requires { (k ≤ most_data) × (r ≤ most_parity) }
    ensures { result ≡ points_allowed k r }
{
    r <= MOST_ROWS || k + r <= MOST_POINTS
}

// Whether t is 0, or r < t <= 3 with t <= k.
fn mark_allowed(k: usize, r: usize, t: usize) -> bool
    ensures { result ≡ mark_allowed k r t }
{
    t == 0 || (r < t && t <= MOST_ROWS && t <= k)
}

// Whether l is 1 to 4096, and divisible by t if t is not 0.
fn length_allowed(t: usize, l: usize) -> bool
    ensures { result ≡ length_allowed t l }
{
    1 <= l && l <= MOST_LENGTH && (t == 0 || l % t == 0)
}

// Whether the position stands in the list. A `for`, and no `any`: `record` says why.
pub fn is_lost(lost: &[u16], c: usize) -> bool
    ensures { result ≡ among c lost.now }
{
    for e in lost {
        if c == usize::from(*e) {
            return true;
        }
    }
    false
}
