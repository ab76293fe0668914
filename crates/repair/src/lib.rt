// Mending of stripes given by check equations. Of the columns that survive the first k are the sources: each lost column is a sum over them
// with weights of the points alone, and so is each further survivor, a spare, by which they are judged. The columns are computed window by
// window. Nothing is written before everything is judged.
#![tactic(auto)]

mod choose;
mod judge;
mod windows;
mod write;

ghost use Rattle.std.specs.Prelude.{◌≡◌, ◌+◌, ◌*◌, ◌≤◌, length, take, drop};
ghost use Rattle.stripe.specs.Refusal.{refusal_of};
ghost use Rattle.stripe.specs.Stripe.{ascending};
ghost use Rattle.repair.specs.Repair.{repair_fits, repair_refusal, Repaired};
ghost use Rattle.repair.specs.Windows.{Computing, Restores};

use crate::choose::{fill_computed, survive};
use crate::judge::judge;
use crate::windows::WINDOW;
use crate::write::write;
use constants::{MOST_CONSTANTS, mending};
use stripe::refusal::Refusal;

// The most columns that are computed.
const COMPUTED: usize = 16;
// The most columns.
const COLUMNS: usize = 255;

// Whether the numbers fit a stripe of d bytes.
fn fits(k: usize, r: usize, l: usize, d: usize) -> bool
    ensures { result ≡ repair_fits k r l d }
{
    if k < 1 {
        return false;
    }
    if r < 1 {
        return false;
    }
    if COMPUTED < r {
        return false;
    }
    if COLUMNS < k {
        return false;
    }
    if COLUMNS < k + r {
        return false;
    }
    if l < 1 {
        return false;
    }
    if 4096 < l {
        return false;
    }
    d == (k + r) * l
}

// Whether the positions ascend strictly and all are below n.
fn ascends(lost: &[usize], n: usize) -> bool
    ensures { result ≡ ascending 0 n lost.now }
{
    let mut least = 0;
    for e in lost {
        if *e < least || n <= *e {
            return false;
        }
        least = *e + 1;
    }
    true
}

// What is refused before a byte of the stripe is looked at.
fn refusal(k: usize, r: usize, l: usize, lost: &[usize], d: usize) -> Result<(), Refusal>
    ensures { refusal_of result ≡ repair_refusal k r l lost.now d }
{
    if !fits(k, r, l, d) {
        return Err(Refusal::Buffer);
    }
    if !ascends(lost, k + r) {
        return Err(Refusal::Lost);
    }
    if r < lost.len() {
        return Err(Refusal::TooManyLost);
    }
    Ok(())
}

// The stripe with its lost columns mended; or a refusal, and the stripe stays: `Buffer`, `Lost` or `TooManyLost` for what is lent,
// `Disagrees` where no codeword agrees with all survivors.
pub fn repair(
    k: usize,
    r: usize,
    l: usize,
    lost: &[usize],
    stripe: &mut [u8],
) -> Result<(), Refusal>
    ensures { Repaired k r l lost.now stripe.old (refusal_of result) stripe.new }
{
    refusal(k, r, l, lost, stripe.len())?;
    let n = r * k;
    let mut w = [0u8; MOST_CONSTANTS];
    repair_by(k, r, l, lost, &mut w[0..n], stripe)
}

// The same, with room for the weights.
fn repair_by(
    k: usize,
    r: usize,
    l: usize,
    lost: &[usize],
    w: &mut [u8],
    stripe: &mut [u8],
) -> Result<(), Refusal>
    requires { (repair_refusal k r l lost.now (length stripe.old) ≡ 0) × (length w.old ≡ r * k) }
    ensures { Repaired k r l lost.now stripe.old (refusal_of result) stripe.new }
{
    let e = lost.len();
    let m = k + r - e;
    let mut kept = [0u8; COLUMNS];
    survive(lost, &mut kept[0..m]);
    let mut to = [0u8; COMPUTED];
    fill_computed(lost, &kept[k..m], &mut to[0..r]);
    mending(k, r, &to[0..r], &kept[0..k], w);
    restore(k, w, &kept[0..m], &to[0..e], l, stripe)
}

// Of the columns kept the first k are the sources, the others spares. The columns `to` as the first rows compute them; or `Disagrees`, and
// the stripe stays, where not each of the spares is what the other rows compute.
fn restore(
    k: usize,
    w: &[u8],
    kept: &[u8],
    to: &[u8],
    l: usize,
    stripe: &mut [u8],
) -> Result<(), Refusal>
    requires { (k ≤ length kept.now)
        × Computing w.now (take k kept.now) to.now (drop k kept.now) l (length stripe.old) }
    ensures { Restores w.now (take k kept.now) to.now (drop k kept.now) l
        stripe.old (refusal_of result) stripe.new }
{
    let first = to.len() * k;
    let n = w.len();
    let m = kept.len();
    let mut made = [0u8; WINDOW];
    if !judge(&w[first..n], &kept[0..k], &kept[k..m], l, stripe, &mut made) {
        return Err(Refusal::Disagrees);
    }
    write(&w[0..first], &kept[0..k], to, l, stripe, &mut made);
    Ok(())
}
