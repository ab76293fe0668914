// The stripes of a fold by rows that reads parity, from the last to the first: each is taken into the wide parity. The rows of what is read
// of a prepared stripe's data are formed first, all at once, by the encoder.
ghost use Rattle.std.specs.Prelude.{◌≡◌, ◌*◌, ◌≤◌, length};
ghost use Rattle.stripe.specs.Shape.{shape_refusal};
ghost use Rattle.plan.specs.Plan.{fold_refusal, kind_of, bytes_each, bytes_read};
ghost use Rattle.fold.specs.Fold.{part_bytes, fold_of};
ghost use Rattle.fold.specs.Shares.{ReadsParity, IsRows, taken};

use crate::runs::take_runs;
use coding::encode::encode_by_rows;
use stripe::Shape;

// The bytes read of a data column, where a fold reads parity.
fn part_bytes(s: Shape) -> usize
    requires { shape_refusal s ≡ 0 }
    ensures { result ≡ part_bytes s }
{
    let r = s.r;
    let t = s.t;
    if t == 0 {
        return 0;
    }
    (t - r) * (s.l / t)
}

// The rows of the data read of a stripe.
fn fill_rows(s: Shape, f: usize, d: &[u8], rows: &mut [u8])
    requires { ReadsParity s f × ((length d.now ≡ bytes_each (kind_of s f) s f) × (length rows.old ≡ f * part_bytes s)) }
    ensures { IsRows s f d.now rows.new }
{
    let k = s.k;
    let m = part_bytes(s);
    if m == 0 {
        return;
    }
    let end = k * m;
    encode_by_rows(Shape::new(k, f, 0, m), &d[..end], rows);
}

// The wide parity once a stripe is taken in, from the bytes read of it.
fn take_stripe(s: Shape, f: usize, first: bool, d: &[u8], rows: &mut [u8], parity: &mut [u8])
    requires { ReadsParity s f
        × ((length d.now ≡ bytes_each (kind_of s f) s f) × ((length rows.old ≡ f * part_bytes s) × (length parity.old ≡ f * s.l))) }
    ensures { parity.new ≡ taken s f first d.now parity.old }
{
    fill_rows(s, f, d, rows);
    take_runs(s, f, first, d, rows, parity);
}

// The wide parity of n stripes, with room for the rows of one.
fn take_all(s: Shape, n: usize, f: usize, d: &[u8], rows: &mut [u8], parity: &mut [u8])
    requires { ReadsParity s f
        × ((fold_refusal s n f ≡ 0)
        × ((length d.now ≡ bytes_read s n f) × ((length rows.old ≡ f * part_bytes s) × (length parity.old ≡ f * s.l)))) }
    ensures { parity.new ≡ fold_of s n f d.now }
{
    let each = d.len() / n;
    let last = n - 1;
    for l in (0..n).rev() {
        let a = l * each;
        let b = a + each;
        take_stripe(s, f, l == last, &d[a..b], rows, parity);
    }
}

// The same, with so much room for the rows.
fn take_in<const ROOM: usize>(s: Shape, n: usize, f: usize, d: &[u8], parity: &mut [u8])
    requires room { (f * part_bytes s ≤ ROOM) × (ROOM ≤ 8192) }
    requires lent { ReadsParity s f × ((fold_refusal s n f ≡ 0) × ((length d.now ≡ bytes_read s n f) × (length parity.old ≡ f * s.l))) }
    ensures { parity.new ≡ fold_of s n f d.now }
{
    let mut rows = [0u8; ROOM];
    let size = f * part_bytes(s);
    take_all(s, n, f, d, &mut rows[..size], parity);
}

// The parity columns of the wide stripe, from the joined bytes of the plan. Small folds don't pay for a large room.
pub(crate) fn fill_parity(s: Shape, n: usize, f: usize, d: &[u8], parity: &mut [u8])
    requires { ReadsParity s f × ((fold_refusal s n f ≡ 0) × ((length d.now ≡ bytes_read s n f) × (length parity.old ≡ f * s.l))) }
    ensures { parity.new ≡ fold_of s n f d.now }
{
    let size = f * part_bytes(s);
    if size <= 192 {
        take_in::<192>(s, n, f, d, parity);
    } else if size <= 1536 {
        take_in::<1536>(s, n, f, d, parity);
    } else {
        take_in::<8192>(s, n, f, d, parity);
    }
}
