// Slots: n bytes each, at equal distances in one buffer.
ghost use Rattle.std.specs.Prelude.{length};
ghost use Rattle.mending.specs.Slots.{Sources, Gathered};

use products::within::mix;

// To the n bytes from `to` on, the slots from `from` on, each times its weight.
pub(crate) fn gather(weights: &[u8], slots: &mut [u8], to: usize, from: usize, d: usize, n: usize)
    requires { Sources (length weights.now) to from d n (length slots.old) }
    ensures { Gathered weights.now to from d n slots.old slots.new }
{
    for v in (0..weights.len()).rev() {
        mix(slots, to, from + v * d, n, weights[v]);
    }
}
