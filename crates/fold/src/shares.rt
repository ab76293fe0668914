// Sums over stripes, a run of a wide row at a time: the run is multiplied by the stripe's weight, and what the stripe adds is added.
// Every share is stored, so each step goes over whole runs.
ghost use Rattle.std.specs.Prelude.{◌≡◌, ◌+◌, ◌≤◌, length};
ghost use Rattle.fold.specs.Shares.{share_at, Within, stepped, Summed};

// What a stripe adds to a run: bytes read of it, from an offset on; bytes of its rows, from an offset on; or both.
#[derive(Clone, Copy)]
pub enum Share {
    Read(usize),
    Row(usize),
    Both(usize, usize),
}

// What stays of the run, nothing or g^w times it, and at each place the byte of the second from `at` on.
// The flag is the stripe's and w the row's: as one Option it would be put together anew for each run.
pub(crate) fn take_bytes(acc: &mut [u8], first: bool, w: usize, d: &[u8], at: usize)
    requires { at + length acc.old ≤ length d.now }
    ensures { acc.new ≡ stepped first w acc.old d.now at }
{
    let end = at + acc.len();
    let part = &d[at..end];
    if first {
        // `copy_from_slice` would call memmove, and C is promised that nothing but memcpy and memset is called.
        lanes::copy(acc, part);
        return;
    }
    weights::weighted(acc, w, part);
}

// What stays of the run, and the share, from the bytes read of a stripe and its rows.
pub(crate) fn take_share(acc: &mut [u8], first: bool, w: usize, share: Share, d: &[u8], rows: &[u8])
    requires { Within share (length acc.old) (length d.now) (length rows.now) }
    ensures { Summed first w (share_at share d.now rows.now) acc.old acc.new }
{
    match share {
        Share::Read(at) => take_bytes(acc, first, w, d, at),
        Share::Row(at) => take_bytes(acc, first, w, rows, at),
        Share::Both(at, from) => {
            let to = from + acc.len();
            take_bytes(acc, first, w, d, at);
            lanes::add(acc, &rows[from..to]);
        }
    }
}
