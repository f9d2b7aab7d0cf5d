//! The byte of a frame: 0 where no block begins, else its order with whether it is out or kept.

ghost use Rattle.std.specs.Prelude.{◌≡◌, ◌+◌, ◌≤◌};
ghost use Rattle.frame_words.specs.Geometry.{huge_order};
ghost use Rattle.core_frames.specs.PlainBytes.{first_out, first_kept};

const FIRST_OUT: u8 = 1;

const FIRST_KEPT: u8 = 11;

/// No block begins at the frame.
pub(crate) const NONE: u8 = 0;

/// The byte of a frame at which a block begins that is out.
pub(crate) fn out_byte(order: u8) -> u8
    requires { order ≤ huge_order }
    ensures { result ≡ first_out + order }
{
    FIRST_OUT + order
}

/// The byte of a frame at which a block begins that was kept.
pub(crate) fn kept_byte(order: u8) -> u8
    requires { order ≤ huge_order }
    ensures { result ≡ first_kept + order }
{
    FIRST_KEPT + order
}
