// The check of a stripe: where its parity first disagrees.
ghost use Rattle.std.specs.Prelude.{◌≡◌};
ghost use Rattle.checking.specs.Check.{number_of, first_wrong};
ghost use Rattle.shelf.specs.Shelf.{shape_of};
ghost use Rattle.shelf.specs.Check.{column_left, place_left};

use crate::shape_of;
use checking::first_wrong;
use stripe::refusal::Refusal;

// 0 for a codeword; 8, and the first parity column and place that disagree are written; or 1, 2 or 5. Else nothing is written.
pub fn shelf_check(
    k: u64,
    r: u64,
    t: u64,
    l: u64,
    data: &[u8],
    parity: &[u8],
    column: &mut u32,
    place: &mut u32,
) -> u32
    ensures value { result ≡ number_of (first_wrong (shape_of k r t l) «data».now parity.now) }
    ensures column_after { column.new
        ≡ column_left (first_wrong (shape_of k r t l) «data».now parity.now) column.old }
    ensures place_after { place.new
        ≡ place_left (first_wrong (shape_of k r t l) «data».now parity.now) place.old }
{
    let s = shape_of(k, r, t, l);
    match first_wrong(s, data, parity) {
        Ok(None) => 0,
        Ok(Some(at)) => {
            *column = at.column as u32;
            *place = at.place as u32;
            u32::from(Refusal::Disagrees)
        }
        Err(no) => u32::from(no),
    }
}
