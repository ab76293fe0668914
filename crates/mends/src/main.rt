// The mending program on many records: each argument names a file, which is what the program proper would read on standard input.
// Where a file can't be opened or read, or the text not be written, a line on standard error says which and why. What it shares with `mend`
// stands in both, as is said there.
#![tactic(auto)]

ghost use Rattle.std.specs.Prelude.{◌≡◌, ◌≤◌, length};

use std::env::FillError;
use std::io::{Cursor, Read, Write};
use std::rt::{Env, Files};
use std::{fs, io, str};

// Room for any text.
fn room() -> [u8; 140000]
    ensures { 140000 ≡ length result }
{
    [0; 140000]
}

// Says on standard error what failed and why, in the system's words alone, without the number that std puts behind them.
fn fail(rt: &impl Eprint, what: &str, error: &io::Error) {
    let mut text = Cursor::new([0u8; 160]);
    let _ = write!(text, "{error}");
    let bytes = text.into_inner();
    let words = str::from_utf8(&bytes).unwrap_or("");
    let why = match words.split_once(" (os error ") {
        Some((why, _)) => why,
        None => words.trim_end_matches('\0'),
    };
    let _ = eprintln!(rt; "{what}: {why}");
}

// Reads until the buffer is full, the file ends or a read fails, and answers how many bytes it put at the front.
// No `Result`: where a read fails, one more is tried afterwards, and that may not change (docs/PORT.md, 'Programs').
fn read_full(file: &mut impl Read, buf: &mut [u8]) -> usize
    ensures { result ≤ length buf.new }
{
    let mut done = 0;
    while done < buf.len() {
        let n = file.read(&mut buf[done..]).unwrap_or(0);
        if n == 0 {
            break;
        }
        done += n;
    }
    done
}

// Reads on where reading stopped: the file has ended there, or goes on; or reading fails.
fn could_read(file: &mut impl Read) -> io::Result<()> {
    file.read(&mut [0u8; 1])?;
    Ok(())
}

// The text of a record.
fn print(rt: &(impl Print + Eprint), bytes: &[u8]) {
    let mut out = room();
    let m = answer::answer(bytes, &mut out);
    if let Err(error) = rt.write_all(&out[..m]) {
        fail(rt, "standard output", &error);
    }
}

// The text of the record in a file. A path that is not UTF-8 is not opened, since std opens none.
fn one(rt: &(impl Files + Print + Eprint), path: &[u8]) {
    let Ok(path) = str::from_utf8(path) else {
        let _ = eprintln!(rt; "{}: the name is not UTF-8", path.escape_ascii());
        return;
    };
    let mut file = match fs::open(rt, path) {
        Ok(file) => file,
        Err(error) => {
            fail(rt, path, &error);
            return;
        }
    };
    let mut bytes = [0u8; 65537];
    let n = read_full(&mut file, &mut bytes);
    let end = could_read(&mut file);
    drop(file);
    match end {
        Ok(()) => print(rt, &bytes[..n]),
        Err(error) => fail(rt, path, &error),
    }
}

// The text of the record in the file that an argument names, and whether there is such an argument. One that is too long for any path
// is taken as empty.
fn nth(rt: &(impl Env + Files + Print + Eprint), i: usize) -> bool {
    let mut path = [0u8; 4096];
    match rt.arg(i, &mut path) {
        Ok(length) => one(rt, &path[..length]),
        Err(FillError::TooLong) => one(rt, b""),
        Err(FillError::NotPresent) => return false,
    }
    true
}

fn main(rt: HostRuntime) {
    if !nth(&rt, 1) {
        let _ = eprintln!(rt; "usage: mends FILE ..");
    }
    for i in 2..usize::MAX {
        if !nth(&rt, i) {
            break;
        }
    }
}
