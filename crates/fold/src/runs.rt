// The runs of the wide parity columns, one after the other: what a stripe adds to each, and where that is stored.
ghost use Rattle.std.specs.Prelude.{◌≡◌, ◌*◌, ◌<◌, length};
ghost use Rattle.stripe.specs.Shape.{shape_refusal, most_rows};
ghost use Rattle.plan.specs.Plan.{kind_of, bytes_each};
ghost use Rattle.fold.specs.Shares.{ReadsParity, IsRows, share_of, taken};

use crate::shares::{Share, take_share};
use stripe::Shape;

// What a stripe adds to run b of wide row j, where it is prepared.
fn prepared_share(s: Shape, j: usize, b: usize) -> Share
    requires { (shape_refusal s ≡ 0) × ((0 < s.t) × ((j < most_rows) × (b < most_rows))) }
    ensures { result ≡ share_of s j b }
{
    let r = s.r;
    let t = s.t;
    let l = s.l;
    let q = l / t;
    let m = (t - r) * q;
    let parity = s.k * m;
    if r <= b {
        return Share::Row(j * m + (b - r) * q);
    }
    if j < r {
        return Share::Read(parity + (j * l + b * q));
    }
    Share::Both(parity + (b * l + j * q), b * m + (j - r) * q)
}

// What a stripe adds to run b of wide row j.
fn share_of(s: Shape, j: usize, b: usize) -> Share
    requires { (shape_refusal s ≡ 0) × ((j < most_rows) × (b < most_rows)) }
    ensures { result ≡ share_of s j b }
{
    if s.t == 0 {
        return Share::Read(j * s.l);
    }
    prepared_share(s, j, b)
}

// The wide parity once a stripe is taken in, from the bytes read of it and its rows.
pub(crate) fn take_runs(s: Shape, f: usize, first: bool, d: &[u8], rows: &[u8], parity: &mut [u8])
    requires { ReadsParity s f
        × ((length d.now ≡ bytes_each (kind_of s f) s f) × (IsRows s f d.now rows.now × (length parity.old ≡ f * s.l))) }
    ensures { parity.new ≡ taken s f first d.now parity.old }
{
    let k = s.k;
    let cut = s.runs();
    let q = s.run_length();
    let all = f * cut;
    for i in 0..all {
        let a = i * q;
        let e = a + q;
        let j = i / cut;
        let share = share_of(s, j, i % cut);
        take_share(&mut parity[a..e], first, j * k, share, d, rows);
    }
}
