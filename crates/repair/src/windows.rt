// Windows of as many places as one buffer has room for, in all columns that are computed.
ghost use Rattle.std.specs.Prelude.{◌*◌, ◌≤◌};

// The bytes of a window.
pub(crate) const WINDOW: usize = 2048;

// How many places of so many columns a window has room for, in whole blocks of 64.
pub(crate) fn places(columns: usize) -> usize
    requires { (1 ≤ columns) × (columns ≤ 16) }
    ensures { (64 ≤ result) × (columns * result ≤ 2048) }
{
    WINDOW / columns / 64 * 64
}
