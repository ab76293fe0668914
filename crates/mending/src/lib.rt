// Mending: the lost columns of a stripe restored, or refused where no codeword agrees with the columns that survive.
// Nothing is written before everything is judged.
#![tactic(auto)]

mod few;
mod gather;
mod run;
mod scalars;
mod settle;
mod solve;
mod survivors;
mod system;
mod write;

ghost use Rattle.std.specs.Prelude.{◌≡◌, [], ◌<◌, ◌≤◌, length};
ghost use Rattle.stripe.specs.Shape.{shape_refusal, parity_length, stripe_length, most_rows, most_rows_length};
ghost use Rattle.stripe.specs.Refusal.{refusal_of};
ghost use Rattle.mending.specs.Mend.{mend_refusal, Mended};
ghost use Rattle.lost.specs.Lost.{lost_list};
ghost use Rattle.mending.specs.Few.{few_list};
ghost use Rattle.mending.specs.Restore.{Ready, ReadyRows, Restores};

use crate::few::{Few, few_of};
use crate::run::solve_runs;
use crate::settle::settle;
use crate::system::system_of;
use crate::write::write;
use lost::{Lost, list_refusal, lost_of};
use repair::repair;
use stripe::refusal::Refusal;
use stripe::{MOST_ROWS, MOST_ROWS_LENGTH, Shape};
use syndromes::syndromes;

// Rows of no more bytes in all are mended in scratch that stands in the frame of the call.
const SHORT: usize = 192;

// The stripe with its lost columns mended; or a refusal, and the stripe stays: for what is lent, or `Disagrees` where no codeword agrees
// with all survivors.
pub fn mend(s: Shape, stripe: &mut [u8], lost: &[u8]) -> Result<(), Refusal>
    ensures { Mended s lost.now stripe.old (refusal_of result) stripe.new }
{
    mend_refusal(s, stripe.len(), lost)?;
    if lost.len() < 1 {
        return check(s, stripe);
    }
    restore(s, lost_of(lost), stripe)
}

// What is refused before a byte of the stripe is looked at.
fn mend_refusal(s: Shape, d: usize, list: &[u8]) -> Result<(), Refusal>
    ensures { refusal_of result ≡ mend_refusal s d list.now }
{
    s.refusal()?;
    let k = s.k;
    let r = s.r;
    let l = s.l;
    let n = k + r;
    if d != n * l {
        return Err(Refusal::Buffer);
    }
    list_refusal(n, r, list)
}

// With nothing lost, whether it is a codeword. That each way is called here and in `restore` keeps their scratch apart: a function that is
// called once the compiler puts into its caller, whose frame then has the scratch of both. Only the short one stands there.
fn check(s: Shape, stripe: &mut [u8]) -> Result<(), Refusal>
    requires { (shape_refusal s ≡ 0) × (length stripe.old ≡ stripe_length s) }
    ensures { Restores s [] stripe.old (refusal_of result) stripe.new }
{
    let at = [0usize; MOST_ROWS];
    if MOST_ROWS < s.r {
        return repair(s.k, s.r, s.l, &at[..0], stripe);
    }
    let w = Few { at, count: 0 };
    let n = s.r * s.l;
    if n <= SHORT {
        return restore_in::<SHORT>(s, w, stripe, n);
    }
    restore_longer(s, w, stripe, n)
}

// The lost columns mended, or refused as `Disagrees`, and the stripe stays.
fn restore(s: Shape, lost: Lost, stripe: &mut [u8]) -> Result<(), Refusal>
    requires { Ready s lost × (length stripe.old ≡ stripe_length s) }
    ensures { Restores s (lost_list lost) stripe.old (refusal_of result) stripe.new }
{
    if MOST_ROWS < s.r {
        return restore_by_points(s, lost, stripe);
    }
    let w = few_of(lost);
    let n = s.r * s.l;
    if n <= SHORT {
        return restore_in::<SHORT>(s, w, stripe, n);
    }
    restore_longer(s, w, stripe, n)
}

// The same by check equations.
fn restore_by_points(s: Shape, lost: Lost, stripe: &mut [u8]) -> Result<(), Refusal>
    requires { Ready s lost × ((most_rows < s.r) × (length stripe.old ≡ stripe_length s)) }
    ensures { Restores s (lost_list lost) stripe.old (refusal_of result) stripe.new }
{
    let at = lost.at;
    let count = lost.count;
    repair(s.k, s.r, s.l, &at[..count], stripe)
}

// The same by rows of n bytes in all, in a scratch of N.
fn restore_in<const N: usize>(
    s: Shape,
    lost: Few,
    stripe: &mut [u8],
    n: usize,
) -> Result<(), Refusal>
    requires { ReadyRows s lost
        × ((length stripe.old ≡ stripe_length s) × ((n ≡ parity_length s) × ((n ≤ N) × (N ≤ most_rows_length)))) }
    ensures { Restores s (few_list lost) stripe.old (refusal_of result) stripe.new }
{
    let mut slots = [0u8; N];
    restore_rows(s, lost, stripe, &mut slots[..n])
}

// The same of any number; the scratch is not much longer than that: 1536 bytes, a row or two of 4096, or the most. Each length makes a
// function of its own, so that they share their room.
fn restore_longer(s: Shape, lost: Few, stripe: &mut [u8], n: usize) -> Result<(), Refusal>
    requires { ReadyRows s lost × ((length stripe.old ≡ stripe_length s) × (n ≡ parity_length s)) }
    ensures { Restores s (few_list lost) stripe.old (refusal_of result) stripe.new }
{
    if n <= 1536 {
        return restore_in::<1536>(s, lost, stripe, n);
    }
    if n <= 4096 {
        return restore_in::<4096>(s, lost, stripe, n);
    }
    if n <= 8192 {
        return restore_in::<8192>(s, lost, stripe, n);
    }
    restore_in::<MOST_ROWS_LENGTH>(s, lost, stripe, n)
}

// The same, in r rows: everything is judged there before a byte is written.
fn restore_rows(s: Shape, lost: Few, stripe: &mut [u8], slots: &mut [u8]) -> Result<(), Refusal>
    requires { ReadyRows s lost × ((length stripe.old ≡ stripe_length s) × (length slots.old ≡ parity_length s)) }
    ensures { Restores s (few_list lost) stripe.old (refusal_of result) stripe.new }
{
    let p = system_of(s, lost);
    syndromes(s, p.pivot, stripe, slots);
    solve_runs(s, p, slots);
    if !settle(s, p, slots) {
        return Err(Refusal::Disagrees);
    }
    write(s, p, slots, stripe);
    Ok(())
}
