// The list of lost positions as a caller lends it, pairs of bytes, low byte first: judged whole, and read into one small record.
#![tactic(auto)]

ghost use Rattle.std.specs.Prelude.{◌≡◌, ◌+◌, ◌*◌, ◌<◌};
ghost use Rattle.stripe.specs.Refusal.{refusal_of};
ghost use Rattle.stripe.specs.Stripe.{ascending};
ghost use Rattle.lost.specs.Positions.{positions, list_refusal};
ghost use Rattle.lost.specs.Lost.{lost_of};

use stripe::MOST_PARITY;
use stripe::refusal::Refusal;

// The most lost positions that a record holds.
pub const CAPACITY: usize = MOST_PARITY;

// Up to CAPACITY lost positions, ascending, and their number; zero stands after the last. No slice: there is no heap to hold one.
#[derive(Clone, Copy)]
pub struct Lost {
    pub at: [usize; CAPACITY],
    pub count: usize,
}

// Refused as `Buffer` for an odd length, else as `Lost` where the positions do not ascend strictly below n, else as `TooManyLost` for more
// than r of them.
pub fn list_refusal(n: usize, r: usize, list: &[u8]) -> Result<(), Refusal>
    ensures { refusal_of result ≡ list_refusal n r list.now }
{
    if list.len() % 2 != 0 {
        return Err(Refusal::Buffer);
    }
    if !ascends(list, n) {
        return Err(Refusal::Lost);
    }
    if r < list.len() / 2 {
        return Err(Refusal::TooManyLost);
    }
    Ok(())
}

// Whether the positions ascend strictly and all are below n.
fn ascends(list: &[u8], n: usize) -> bool
    ensures { result ≡ ascending 0 n (positions list.now) }
{
    let mut least = 0;
    for pair in list.chunks_exact(2) {
        let e = position(pair[0], pair[1]);
        if e < least || n <= e {
            return false;
        }
        least = e + 1;
    }
    true
}

// The position of a pair of bytes.
fn position(low: u8, high: u8) -> usize
    ensures { (result ≡ low + high * 256) × (result < 65536) }
{
    usize::from(u16::from_le_bytes([low, high]))
}

// The number of positions in the list, and the first CAPACITY of them.
pub fn lost_of(list: &[u8]) -> Lost
    ensures { result ≡ lost_of list.now }
{
    let mut at = [0usize; CAPACITY];
    let count = list.len() / 2;
    for i in 0..CAPACITY {
        if count <= i {
            return Lost { at, count };
        }
        at[i] = position(list[2 * i], list[2 * i + 1]);
    }
    Lost { at, count }
}
