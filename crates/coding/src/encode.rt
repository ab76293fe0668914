// Encoding: the parity of lent data, filled into a lent buffer. With r above 3 that is done in `by_points`. By rows, first every parity
// column is its row; a prepared stripe then has its piggybacks added, run by run. Callers whose r is at most 3 need not pay for the
// stack that points take: `encode_by_rows` is for them.
ghost use Rattle.std.specs.Prelude.{◌≡◌, false, ℕ, ◌<◌, length};
ghost use Rattle.stripe.specs.Refusal.{refusal_of};
ghost use Rattle.stripe.specs.Stripe.{by_points, parity};
ghost use Rattle.coding.specs.Encode.{encode_refusal, encoded, encoded_by_rows, IsRow, IsParity, Beside};

use crate::by_points::fill_by_points;
use rows::{add_row, fill_rows};
use stripe::column::lent_refusal;
use stripe::refusal::Refusal;
use stripe::{MOST_ROWS, Shape};

// The parity of the data is filled in; or what is lent is refused, and nothing is written.
pub fn encode(s: Shape, data: &[u8], parity: &mut [u8]) -> Result<(), Refusal>
    ensures value { refusal_of result ≡ encode_refusal s (length «data».now) (length parity.old) }
    ensures parity_after { parity.new ≡ encoded s «data».now parity.old }
{
    lent_refusal(s, data.len(), parity.len())?;
    fill_parity(s, data, parity);
    Ok(())
}

// The same by rows, with no answer: the parity of the data is filled in where r is at most MOST_ROWS and nothing is refused.
pub fn encode_by_rows(s: Shape, data: &[u8], parity: &mut [u8])
    ensures { parity.new ≡ encoded_by_rows s «data».now parity.old }
{
    if MOST_ROWS < s.r {
        return;
    }
    if lent_refusal(s, data.len(), parity.len()).is_err() {
        return;
    }
    fill_by_rows(s, data, parity);
}

// The parity of the data.
fn fill_parity(s: Shape, data: &[u8], out: &mut [u8])
    requires { encode_refusal s (length «data».now) (length out.old) ≡ 0 }
    ensures { out.new ≡ parity s «data».now }
{
    if MOST_ROWS < s.r {
        fill_by_points(s, data, out);
        return;
    }
    fill_by_rows(s, data, out);
}

// The same by rows.
fn fill_by_rows(s: Shape, data: &[u8], out: &mut [u8])
    requires { (encode_refusal s (length «data».now) (length out.old) ≡ 0) × (by_points s ≡ false) }
    ensures { out.new ≡ parity s «data».now }
{
    let k = s.k;
    let r = s.r;
    let l = s.l;
    let t = s.t;
    fill_rows(data, k, l, r, out);
    if t < 1 {
        return;
    }
    add_piggybacks(s, data, out);
}

// What a prepared stripe holds beside its rows.
fn add_piggybacks(s: Shape, data: &[u8], out: &mut [u8])
    requires { (encode_refusal s (length «data».now) (length out.old) ≡ 0)
        × ((0 < s.t) × ((i : ℕ) → i < s.r → IsRow s «data».now i out.old)) }
    ensures { (i : ℕ) → i < s.r → IsParity s «data».now i out.new }
{
    for i in 0..s.r {
        add_runs(s, data, i, out);
    }
}

// To each run j >= r of parity column i, row j of run i.
fn add_runs(s: Shape, data: &[u8], i: usize, out: &mut [u8])
    requires { (encode_refusal s (length «data».now) (length out.old) ≡ 0)
        × ((0 < s.t) × ((i < s.r) × IsRow s «data».now i out.old)) }
    ensures { IsParity s «data».now i out.new × Beside s.l i out.old out.new }
{
    let k = s.k;
    let r = s.r;
    let l = s.l;
    let t = s.t;
    let m = s.run_length();
    for j in r..t {
        let a = i * l + j * m;
        let e = a + m;
        add_row(data, k, l, j, i * m, &mut out[a..e]);
    }
}
