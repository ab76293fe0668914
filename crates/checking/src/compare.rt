// Two slices compared, a byte at each place, to the end of the shorter. Whether they agree is asked of every place, in a form that the
// compiler turns into vector code; where they first differ is looked for place by place.
ghost use Rattle.std.specs.Prelude.{◌≡◌, length};
ghost use Rattle.checking.specs.Compare.{agree, first_difference};

// Whether the two agree at each place.
fn same(a: &[u8], d: &[u8]) -> bool
    ensures { result ≡ agree a.now d.now }
{
    a.iter().zip(d).fold(0, |z, (x, y)| z | (x ^ y)) == 0
}

// The first place at which the two differ, or the length of the shorter: no Option, since the definition is one number, which `where_is`
// and the least of several windows take as it is.
fn first_difference(a: &[u8], d: &[u8]) -> usize
    ensures { result ≡ first_difference a.now d.now }
{
    a.iter()
        .zip(d)
        .position(|(x, y)| x != y)
        .unwrap_or(a.len().min(d.len()))
}

// The first place at which two slices of one length differ, or their length: looked for only where they do not agree.
pub(crate) fn difference(a: &[u8], d: &[u8]) -> usize
    requires { length a.now ≡ length d.now }
    ensures { result ≡ first_difference a.now d.now }
{
    if same(a, d) {
        return a.len();
    }
    first_difference(a, d)
}
