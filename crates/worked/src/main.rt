// Runs the worked examples of document 01 through the library and prints what it answers; `stdout` has what the document says.
// The starred ones are also a theorem over the definitions (crate `demands`). The stripes with t=3 stand for what the document's
// own examples can't show, a piggyback that is always taken from run 0; their bytes come from the second program. The bills are our own.
#![tactic(auto)]

use checking::{Place, first_wrong};
use coding::encode::encode;
use field::Gf;
use fold::fold;
use number::write_number;
use plan::counts::{bill_of, bytes_read, columns_read};
use plan::fold_refusal;
use record::read::{Read, read_record};
use std::{fmt, io};
use stripe::Shape;
use stripe::column::column;
use stripe::refusal::Refusal;
use writing::write_record;

// A shape's numbers.
#[derive(Clone, Copy)]
struct Numbers(Shape);

impl fmt::Display for Numbers {
    fn fmt<W: fmt::Write>(&self, f: &mut fmt::Formatter<W>) -> fmt::Result {
        let s = self.0;
        write!(f, "k={} r={} t={} L={}", s.k, s.r, s.t, s.l)
    }
}

// Bytes, each after a space.
#[derive(Clone, Copy)]
struct Bytes<'a>(&'a [u8]);

impl<'a> fmt::Display for Bytes<'a> {
    fn fmt<W: fmt::Write>(&self, f: &mut fmt::Formatter<W>) -> fmt::Result {
        for b in self.0 {
            write!(f, " {b:02x}")?;
        }
        Ok(())
    }
}

// A number that is claimed, and whether the claim holds.
#[derive(Clone, Copy)]
struct Claim(usize, bool);

impl fmt::Display for Claim {
    fn fmt<W: fmt::Write>(&self, f: &mut fmt::Formatter<W>) -> fmt::Result {
        let not = if self.1 { "" } else { "not " };
        let n = self.0;
        write!(f, "{not}{n}")
    }
}

// The number of an answer's refusal, 0 where nothing is refused.
fn number<T: Copy>(answer: Result<T, Refusal>) -> u32 {
    match answer {
        Ok(_) => 0,
        Err(no) => u32::from(no),
    }
}

fn product(rt: &impl Print, a: u8, b: u8) -> io::Result<()> {
    let c = Gf(a).product(Gf(b)).0;
    println!(rt; "{a:02x} times {b:02x} is {c:02x}")
}

fn power(rt: &impl Print, n: usize) -> io::Result<()> {
    let x = Gf::power(n).0;
    println!(rt; "g^{n} is {x:02x}")
}

fn refusal(rt: &impl Print, k: usize, r: usize, t: usize, l: usize) -> io::Result<()> {
    let s = Shape::new(k, r, t, l);
    println!(rt; "{}: {}", Numbers(s), number(s.refusal()))
}

fn parity(rt: &impl Print, s: Shape, data: &[u8], parity: &mut [u8]) -> io::Result<()> {
    let no = number(encode(s, data, parity));
    println!(rt;
        "{} data{} answers {no} parity{}",
        Numbers(s),
        Bytes(data),
        Bytes(parity)
    )
}

fn check(rt: &impl Print, s: Shape, data: &[u8], parity: &[u8]) -> io::Result<()> {
    print!(rt;
        "{} data{} parity{}",
        Numbers(s),
        Bytes(data),
        Bytes(parity)
    )?;
    match first_wrong(s, data, parity) {
        Ok(None) => println!(rt; " agrees"),
        Ok(Some(Place { column, place })) => println!(rt; " is wrong at {column}, {place}"),
        Err(no) => println!(rt; " is refused {}", u32::from(no)),
    }
}

fn plan(rt: &impl Print, s: Shape, stripes: usize, f: usize, bytes: usize) -> io::Result<()> {
    let no = number(fold_refusal(s, stripes, f));
    let claim = Claim(bytes, bytes_read(s, stripes, f).is(bytes));
    let columns = columns_read(s, stripes, f).number();
    println!(rt;
        "{} N={stripes} f={f}: {no}, {claim} bytes, {columns} columns",
        Numbers(s)
    )
}

fn billed(
    rt: &impl Print,
    s: Shape,
    stripes: usize,
    f: usize,
    read: usize,
    written: usize,
    sum: usize,
) -> io::Result<()> {
    let bill = bill_of(s, stripes, f);
    let columns = bill.columns;
    let bytes = bill.bytes;
    print!(rt; "{} N={stripes} f={f}: ", Numbers(s))?;
    print!(rt;
        "columns {} + {} = {}, ",
        columns.read.number(),
        columns.written.number(),
        columns.sum.number()
    )?;
    let read = Claim(read, bytes.read.is(read));
    let written = Claim(written, bytes.written.is(written));
    let sum = Claim(sum, bytes.sum.is(sum));
    println!(rt; "bytes {read} + {written} = {sum}")
}

fn folded(rt: &impl Print, s: Shape, f: usize, read: &[u8], parity: &mut [u8]) -> io::Result<()> {
    plan(rt, s, 2, f, read.len())?;
    let no = number(fold(s, 2, f, read, parity));
    println!(rt;
        "  read{} answers {no} parity{}",
        Bytes(read),
        Bytes(parity)
    )
}

fn part<'a>(
    rt: &impl Print,
    s: Shape,
    data: &'a [u8],
    parity: &'a [u8],
    at: usize,
) -> io::Result<()> {
    println!(rt; "column {at}:{}", Bytes(column(s, data, parity, at)))
}

fn written(rt: &impl Print, value: u32) -> io::Result<()> {
    let mut out = [0u8; 5];
    let n = write_number(value, &mut out, 0);
    println!(rt; "{value} is written{}, next place {n}", Bytes(&out))
}

fn recorded(rt: &impl Print, s: Shape, stripe: &[u8], lost: &[u16]) -> io::Result<()> {
    let mut out = [0xeeu8; 16];
    let answer = write_record(s, stripe, lost, &mut out);
    let no = number(answer);
    let length = answer.unwrap_or(0);
    print!(rt;
        "{} stripe{} answers {no}, {length} bytes:",
        Numbers(s),
        Bytes(stripe)
    )?;
    println!(rt; "{}", Bytes(&out))
}

fn taken(rt: &impl Print, record: &[u8]) -> io::Result<()> {
    let mut stripe = [0xeeu8; 65536];
    let mut lost = [7u16; 258];
    let answer = read_record(record, &mut stripe, &mut lost);
    let no = number(answer);
    let read = answer.unwrap_or(Read {
        shape: Shape::new(0, 0, 0, 0),
        lost: 0,
    });
    print!(rt;
        "record{} answers {no}, {}, ",
        Bytes(record),
        Numbers(read.shape)
    )?;
    println!(rt; "{} lost, stripe{}", read.lost, Bytes(&stripe[..8]))
}

fn fields(rt: &impl Print) -> io::Result<()> {
    product(rt, 0x02, 0x80)?;
    power(rt, 255)
}

fn allowed(rt: &impl Print) -> io::Result<()> {
    refusal(rt, 255, 3, 0, 1)?;
    refusal(rt, 256, 3, 0, 1)?;
    refusal(rt, 4, 2, 2, 4)?;
    refusal(rt, 1, 1, 2, 2)?;
    refusal(rt, 2, 1, 2, 3)?;
    refusal(rt, 3, 1, 3, 4096)?;
    refusal(rt, 18446744073709551615, 1, 0, 18446744073709551615)
}

fn plain(rt: &impl Print) -> io::Result<()> {
    let mut p = [0u8; 3];
    let s = Shape::new(2, 3, 0, 1);
    parity(rt, s, b"\x01\x02", &mut p)?;
    parity(rt, s, b"\x03\x04", &mut p)?;
    check(rt, s, b"\x03\x04", b"\x07\x0b\x13")?;
    check(rt, s, b"\x03\x04", b"\x07\x0b\x12")?;
    check(rt, s, b"\x03\x04", b"\x07\x0b")
}

fn prepared(rt: &impl Print) -> io::Result<()> {
    let mut p = [0u8; 2];
    let s = Shape::new(2, 1, 2, 2);
    parity(rt, s, b"\x01\x03\x02\x04", &mut p)?;
    parity(rt, s, b"\x05\x07\x06\x08", &mut p)?;
    check(rt, s, b"\x01\x03\x02\x04", b"\x03\x07")
}

fn three_runs(rt: &impl Print) -> io::Result<()> {
    let mut p = [0u8; 6];
    parity(
        rt,
        Shape::new(3, 2, 3, 3),
        b"\x53\xca\x01\x1d\x80\xff\x9b\x00\x47",
        &mut p,
    )?;
    let mut q = [0u8; 3];
    parity(
        rt,
        Shape::new(3, 1, 3, 3),
        b"\x53\xca\x01\x1d\x80\xff\x9b\x00\x47",
        &mut q,
    )?;
    let mut a = [0u8; 12];
    let d =
        b"\x53\xca\x01\x1d\x80\xff\x9b\x00\x47\x02\xe6\x7c\x35\xa8\x10\xd1\x6f\x04\xb2\x59\x8e\x23\xfa\x60";
    parity(rt, Shape::new(4, 2, 3, 6), d, &mut a)?;
    let mut b = [0u8; 6];
    parity(rt, Shape::new(4, 1, 3, 6), d, &mut b)
}

fn plans(rt: &impl Print) -> io::Result<()> {
    plan(rt, Shape::new(4, 1, 2, 2), 2, 2, 12)?;
    plan(rt, Shape::new(4, 2, 0, 512), 3, 2, 3072)?;
    plan(rt, Shape::new(127, 1, 0, 1), 2, 1, 2)?;
    plan(rt, Shape::new(128, 1, 0, 1), 2, 1, 0)?;
    plan(rt, Shape::new(4, 2, 0, 512), 1, 2, 0)
}

fn bills(rt: &impl Print) -> io::Result<()> {
    billed(rt, Shape::new(4, 2, 0, 4096), 3, 2, 24576, 8192, 32768)?;
    billed(rt, Shape::new(4, 4, 0, 1), 2, 4, 8, 4, 12)?;
    billed(rt, Shape::new(2, 1, 2, 2), 2, 2, 8, 4, 12)?;
    billed(rt, Shape::new(4, 2, 0, 512), 3, 3, 6144, 1536, 7680)?;
    billed(rt, Shape::new(4, 2, 0, 512), 1, 2, 0, 0, 0)
}

fn folds(rt: &impl Print) -> io::Result<()> {
    let mut two = [0u8; 2];
    folded(rt, Shape::new(2, 3, 0, 1), 2, b"\x03\x05\x07\x0b", &mut two)?;
    let mut three = [0u8; 3];
    folded(
        rt,
        Shape::new(2, 3, 0, 1),
        3,
        b"\x01\x02\x03\x04",
        &mut three,
    )?;
    let mut four = [0u8; 4];
    folded(
        rt,
        Shape::new(2, 1, 2, 2),
        2,
        b"\x03\x04\x03\x02\x07\x08\x03\x06",
        &mut four,
    )
}

fn columns(rt: &impl Print) -> io::Result<()> {
    let s = Shape::new(2, 1, 2, 2);
    part(rt, s, b"\x01\x03\x02\x04", b"\x03\x02", 1)?;
    part(rt, s, b"\x01\x03\x02\x04", b"\x03\x02", 2)?;
    part(rt, s, b"\x01\x03\x02\x04", b"\x03\x02", 3)
}

fn records(rt: &impl Print) -> io::Result<()> {
    written(rt, 300)?;
    let s = Shape::new(4, 2, 0, 1);
    let lost = [0u16, 3];
    recorded(rt, s, b"\x05\x06\x03\x04\x04\x29", &lost)?;
    recorded(rt, s, b"\x05\x06\x03\x04\x04\x29", &lost[1..])?;
    recorded(rt, s, b"\x05\x06\x03\x04\x04", &lost)?;
    taken(rt, b"\x04\x02\x00\x01\x02\x00\x03\x06\x03\x04\x29")?;
    taken(rt, b"\x80\x00")?;
    taken(rt, b"")
}

fn main(rt: HostRuntime) -> io::Result<()> {
    fields(&rt)?;
    allowed(&rt)?;
    plain(&rt)?;
    prepared(&rt)?;
    three_runs(&rt)?;
    plans(&rt)?;
    bills(&rt)?;
    folds(&rt)?;
    columns(&rt)?;
    records(&rt)
}
