//! What holds the seat of a core.

ghost use Rattle.std.specs.Prelude.{◌≡◌};

use crate::seats::CoreSeat;

/// What holds the seat of a core: the seat itself, or a caller's type for a core.
pub trait Seated {
    ghost use Rattle.frame_table.specs.declared.seats.CoreSeat.{CoreSeat};

    ghost seat_of: { Self → CoreSeat };

    fn into_seat(self) -> CoreSeat
        ensures { result ≡ seat_of self };
}

impl Seated for CoreSeat {
    ghost seat_of = { λ s. s };

    fn into_seat(self) -> CoreSeat {
        self
    }
}
