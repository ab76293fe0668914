// The answer of the mending program: the text that it prints, written over the front of what is lent; what follows stays. The answer
// is the length of the text; where there is no room for it, it is 0, and nothing is written (`Printed`): no Option, as in `text`.
#![tactic(auto)]

use crate::mended::read_and_mend;
use text::{write_refusal, write_text};

pub mod mended;

ghost use Rattle.answer.specs.Answer.{Printed};

// What the mending program prints for a record, with room for 140,000 bytes: the mended stripe, or the refusal alone.
pub fn answer(bytes: &[u8], out: &mut [u8]) -> usize
    ensures { Printed bytes.now out.old result out.new }
{
    if out.len() < 140000 {
        return 0;
    }
    let mut held = [0u8; 65536];
    let mut list = [0u16; 258];
    match read_and_mend(bytes, &mut held, &mut list) {
        Ok(read) => {
            let n = (read.shape.k + read.shape.r) * read.shape.l;
            let m = read.lost;
            write_text(read.shape, &list[..m], &held[..n], out)
        }
        Err(no) => write_refusal(u32::from(no), out),
    }
}
