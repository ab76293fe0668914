// Why a call is refused.
ghost use Rattle.std.specs.Prelude.{◌≡◌};
ghost use Rattle.stripe.specs.Refusal.{refusal_number};

// The refusals of document 01's table, in its order.
#[derive(Clone, Copy, PartialEq, Eq)]
pub enum Refusal {
    // k, r or t is not allowed.
    Shape,
    // L is not allowed.
    Length,
    // N is not allowed.
    Stripes,
    // f is not allowed.
    NewParity,
    // A lent buffer has another length than stated, or a record or its stripe is too long.
    Buffer,
    // Lost positions do not ascend strictly, or one is no position.
    Lost,
    // More than r positions are lost.
    TooManyLost,
    // No codeword agrees with all survivors.
    Disagrees,
    // A number of a record is malformed or cut, or its columns are cut.
    Cut,
    // Bytes of a record are left over.
    LeftOver,
}

// The number of a refusal in document 01's table.
impl From<Refusal> for u32 {
    ghost from_gives = { λ no n. n ≡ refusal_number no };

    fn from(no: Refusal) -> u32 {
        match no {
            Refusal::Shape => 1,
            Refusal::Length => 2,
            Refusal::Stripes => 3,
            Refusal::NewParity => 4,
            Refusal::Buffer => 5,
            Refusal::Lost => 6,
            Refusal::TooManyLost => 7,
            Refusal::Disagrees => 8,
            Refusal::Cut => 9,
            Refusal::LeftOver => 10,
        }
    }
}
