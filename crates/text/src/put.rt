// Pieces of text, each written over what stands from a place on; the answer is the place after it. std's `write!` promises its text only of
// a `String`, and there is no heap. A record of the output and the place would be no plainer: each clause would have to say too that it
// holds the same `&mut` as before.
ghost use Rattle.std.specs.Prelude.{◌≡◌, ◌+◌, ◌≤◌, ◌<◌, [], ◌∷◌, length};
ghost use Rattle.field.specs.Bytes.{over};
ghost use Rattle.text.specs.Text.{decimal_in, decimal, hex_digit, hex};

// One byte.
pub(crate) fn put_byte(out: &mut [u8], at: usize, b: u8) -> usize
    requires { at < length out.old }
    ensures value { result ≡ at + 1 }
    ensures out_after { out.new ≡ over out.old at (b ∷ []) }
{
    out[at] = b;
    at + 1
}

// A word.
pub(crate) fn put_word(out: &mut [u8], at: usize, word: &[u8]) -> usize
    requires { at + length word.now ≤ length out.old }
    ensures value { result ≡ at + length word.now }
    ensures out_after { out.new ≡ over out.old at word.now }
{
    let next = at + word.len();
    out[at..next].copy_from_slice(word);
    next
}

// A number of at most m digits in decimal.
fn put_digits(out: &mut [u8], at: usize, n: usize, m: usize) -> usize
    requires { (m ≤ 20) × (at + length (decimal_in m n) ≤ length out.old) }
    ensures value { result ≡ at + length (decimal_in m n) }
    ensures out_after { out.new ≡ over out.old at (decimal_in m n) }
{
    if m == 0 {
        return at;
    }
    if n < 10 {
        return put_byte(out, at, b'0' + (n % 10) as u8);
    }
    let next = put_digits(out, at, n / 10, m - 1);
    put_byte(out, next, b'0' + (n % 10) as u8)
}

// A number in decimal.
pub(crate) fn put_decimal(out: &mut [u8], at: usize, n: usize) -> usize
    requires { at + length (decimal n) ≤ length out.old }
    ensures value { result ≡ at + length (decimal n) }
    ensures out_after { out.new ≡ over out.old at (decimal n) }
{
    put_digits(out, at, n, 20)
}

// A digit of lower-case hex.
fn hex_digit(d: u8) -> u8
    requires { d < 16 }
    ensures { result ≡ hex_digit d }
{
    if d < 10 { b'0' + d } else { b'a' - 10 + d }
}

// A byte in lower-case hex.
fn put_pair(out: &mut [u8], at: usize, b: u8) -> usize
    requires { at + 2 ≤ length out.old }
    ensures value { result ≡ at + 2 }
    ensures out_after { out.new ≡ over out.old at (hex (b ∷ [])) }
{
    let next = put_byte(out, at, hex_digit(b / 16));
    put_byte(out, next, hex_digit(b % 16))
}

// Bytes in lower-case hex.
pub(crate) fn put_hex(out: &mut [u8], at: usize, bytes: &[u8]) -> usize
    requires { at + length (hex bytes.now) ≤ length out.old }
    ensures value { result ≡ at + length (hex bytes.now) }
    ensures out_after { out.new ≡ over out.old at (hex bytes.now) }
{
    let mut next = at;
    for b in bytes {
        next = put_pair(out, next, *b);
    }
    next
}
