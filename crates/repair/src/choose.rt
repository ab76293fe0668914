// Which columns are computed, and from which.
ghost use Rattle.std.specs.Prelude.{◌≡◌, ◌+◌, ◌≤◌, ◌++◌, length};
ghost use Rattle.field.specs.Bytes.{Bytes};
ghost use Rattle.stripe.specs.Stripe.{Ascending};
ghost use Rattle.equations.specs.Chosen.{survivors};
ghost use Rattle.repair.specs.Windows.{next_is};

// The positions that survive, of those below the number of all.
pub(crate) fn survive(lost: &[usize], out: &mut [u8])
    requires { (length out.old + length lost.now ≤ 255) × Ascending 0 (length out.old + length lost.now) lost.now }
    ensures { out.new ≡ survivors 0 (length out.old + length lost.now) lost.now }
{
    let n = out.len() + lost.len();
    let mut v = 0;
    let mut m = 0;
    for c in 0..n {
        if is_next(lost, v, c) {
            v += 1;
        } else {
            out[m] = c as u8;
            m += 1;
        }
    }
}

// Whether number v of the lost positions is c.
fn is_next(lost: &[usize], v: usize, c: usize) -> bool
    ensures { result ≡ next_is lost.now v c }
{
    lost.get(v) == Some(&c)
}

// The positions that are computed: the lost ones, then the spares.
pub(crate) fn fill_computed(lost: &[usize], spares: &[u8], out: &mut [u8])
    requires { (length out.old ≡ length lost.now + length spares.now) × Bytes lost.now }
    ensures { out.new ≡ lost.now ++ spares.now }
{
    for (v, c) in lost.iter().enumerate() {
        out[v] = *c as u8;
    }
    out[lost.len()..].copy_from_slice(spares);
}
