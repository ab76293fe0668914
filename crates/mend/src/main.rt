// The mending program: one record on standard input, of which one byte more than is allowed is read, and its text on standard output.
// Where reading or writing fails a line on standard error says so. `mends` has the same small functions: shared they would be public, and
// no contract can say of what std reads and writes that there is one outcome.
#![tactic(auto)]

ghost use Rattle.std.specs.Prelude.{◌≡◌, ◌≤◌, length};

use std::io::{Cursor, Read, Write};
use std::{io, str};

// Room for any text.
fn room() -> [u8; 140000]
    ensures { 140000 ≡ length result }
{
    [0; 140000]
}

// Says on standard error what failed and why, in the system's words alone, without the number that std puts behind them.
fn fail(rt: &impl Eprint, what: &str, error: &io::Error) {
    let mut text = Cursor::new([0u8; 160]);
    let _ = write!(text, "{error}");
    let bytes = text.into_inner();
    let words = str::from_utf8(&bytes).unwrap_or("");
    let why = match words.split_once(" (os error ") {
        Some((why, _)) => why,
        None => words.trim_end_matches('\0'),
    };
    let _ = eprintln!(rt; "{what}: {why}");
}

// Reads until the buffer is full, the input ends or a read fails, and answers how many bytes it put at the front.
// No `Result`: where a read fails, one more is tried afterwards, and that may not change (docs/PORT.md, 'Programs').
fn read_full(input: &mut impl Read, buf: &mut [u8]) -> usize
    ensures { result ≤ length buf.new }
{
    let mut done = 0;
    while done < buf.len() {
        let n = input.read(&mut buf[done..]).unwrap_or(0);
        if n == 0 {
            break;
        }
        done += n;
    }
    done
}

// Reads on where reading stopped: the input has ended there, or goes on; or reading fails.
fn could_read(input: &mut impl Read) -> io::Result<()> {
    input.read(&mut [0u8; 1])?;
    Ok(())
}

// The text of a record.
fn print(rt: &(impl Print + Eprint), bytes: &[u8]) {
    let mut out = room();
    let m = answer::answer(bytes, &mut out);
    if let Err(error) = rt.write_all(&out[..m]) {
        fail(rt, "standard output", &error);
    }
}

fn main(rt: HostRuntime) {
    let mut bytes = [0u8; 65537];
    let mut input = rt.stdin();
    let n = read_full(&mut input, &mut bytes);
    match could_read(&mut input) {
        Ok(()) => print(&rt, &bytes[..n]),
        Err(error) => fail(&rt, "standard input", &error),
    }
}
