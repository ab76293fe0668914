// Data and parity of a stripe as they are lent.
ghost use Rattle.std.specs.Prelude.{◌≡◌, length};
ghost use Rattle.stripe.specs.Column.{lent_refusal};

use stripe::Shape;

// The two buffers beside their shape, which refuses neither.
#[derive(Clone, Copy)]
pub(crate) struct Lent<'a> {
    pub(crate) shape: Shape,
    pub(crate) data: &'a [u8],
    pub(crate) parity: &'a [u8],
    ghost allowed: { lent_refusal shape (length «data».now) (length parity.now) ≡ 0 },
}
