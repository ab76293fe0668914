// Numbers of a record: groups of seven bits, lowest group first, the top bit set on all but the last byte. At most five
// bytes, at most 2^32-1, and only in the shortest form.
#![tactic(auto)]

ghost use Rattle.std.specs.Prelude.{◌≡◌, ◌+◌, ◌≤◌, length};
ghost use Rattle.std.proofs.lemmas.List.Edits.{sets};
ghost use Rattle.stripe.specs.declared.refusal.Refusal.TheVariants.{Cut};
ghost use Rattle.stripe.specs.Refusal.{refusal_of};
ghost use Rattle.number.specs.Number.{reported, number_refusal, number_at, groups_at, written, count_placed, placed};

use stripe::refusal::Refusal;

// A number, and the place after it.
#[derive(Clone, Copy, Default)]
pub struct Number {
    pub value: usize,
    pub next: usize,
}

// Why no number stands at a place.
#[derive(Clone, Copy)]
pub enum Flaw {
    // The end cuts one off.
    Cut,
    // What stands there begins no number.
    Malformed,
}

// What is cut and what is malformed are refused alike.
impl From<Flaw> for Refusal {
    ghost from_gives = { λ _ no. no ≡ Cut };

    fn from(_flaw: Flaw) -> Refusal {
        Refusal::Cut
    }
}

// Refused as `Cut`, whether it is cut or malformed; accepted where it is a number.
pub fn number_refusal(n: Result<Number, Flaw>) -> Result<(), Refusal>
    ensures { refusal_of result ≡ number_refusal (reported n) }
{
    match n {
        Ok(_) => Ok(()),
        Err(flaw) => Err(flaw.into()),
    }
}

// The number at a place.
pub fn read_number(s: &[u8], at: usize) -> Result<Number, Flaw>
    ensures { reported result ≡ number_at s.now at }
{
    let number = groups_at(s, at, 5)?;
    if 4294967295 < number.value {
        return Err(Flaw::Malformed);
    }
    Ok(number)
}

// The number at a place, of at most m groups.
fn groups_at(s: &[u8], at: usize, m: usize) -> Result<Number, Flaw>
    requires { m ≤ 5 }
    ensures { reported result ≡ groups_at m s.now at }
{
    if m == 0 {
        return Err(Flaw::Malformed);
    }
    if s.len() <= at {
        return Err(Flaw::Cut);
    }
    let b = usize::from(s[at]);
    let next = at + 1;
    if b < 128 {
        return Ok(Number { value: b, next });
    }
    let rest = groups_at(s, next, m - 1)?;
    if rest.value == 0 {
        return Err(Flaw::Malformed);
    }
    Ok(Number {
        value: b - 128 + 128 * rest.value,
        next: rest.next,
    })
}

// How many bytes a number takes.
pub fn number_length(value: u32) -> usize
    ensures { result ≡ length (written value) }
{
    let mut v = value;
    let mut n: usize = 1;
    while 128 <= v {
        v = v / 128;
        n += 1;
    }
    n
}

// Writes the number at a place, and answers how many bytes it took; 0, and nothing is written, where there is no room.
// A count as it is, and no Option of one: no number takes 0 bytes, and `at` plus the count is the next place either way.
pub fn write_number(value: u32, out: &mut [u8], at: usize) -> usize
    ensures value { result ≡ count_placed out.old at (written value) }
    ensures out_after { out.new ≡ placed out.old at (written value) }
{
    let n = number_length(value);
    if out.len() < n {
        return 0;
    }
    if out.len() - n < at {
        return 0;
    }
    put_number(value, out, at);
    n
}

// Writes the number at a place with room for it. The place goes along with the groups: a `for` over the places would have to
// ask at each of them whether its group is the last.
fn put_number(value: u32, out: &mut [u8], at: usize)
    requires { at + length (written value) ≤ length out.old }
    ensures { out.new ≡ sets out.old at (written value) }
{
    let mut v = value;
    let mut i = at;
    while 128 <= v {
        out[i] = (128 + v % 128) as u8;
        v = v / 128;
        i += 1;
    }
    out[i] = v as u8;
}
