//! What each atomic operation on the table tells of the seat that steps.

use crate::rule::Watch;
use atomic_table::{Join, Play, Split};
use std::marker::{Brand, PhantomData};

/// Which kind of step on a word it is. Each call picks it.
pub trait Stepping {
    ghost use Rattle.frame_model.specs.Steps.{Kind};

    ghost kind: { Kind };
}

impl Stepping for Brand {
    ghost use Rattle.frame_model.specs.Steps.{refund};

    ghost kind = { refund 0 0 };
}

/// How a seat is cut in two. Each call picks it.
pub trait Cutting {
    ghost use Rattle.frame_model.specs.Seats.{Cut};

    ghost cut: { Cut };
}

impl Cutting for Brand {
    ghost use Rattle.frame_model.specs.Seats.{part_share};

    ghost cut = { part_share 0 };
}

/// How a seat takes in another. Each call picks it.
pub trait Joining {
    ghost use Rattle.frame_model.specs.Seats.{Join};

    ghost join: { Join };
}

impl Joining for Brand {
    ghost use Rattle.frame_model.specs.Seats.{join_idle};

    ghost join = { join_idle };
}

pub struct Look;

impl Play<(), Watch> for Look {
    ghost use Rattle.frame_table.specs.Rule.{Looks};

    ghost then = { Looks };
}

/// An exchange, which is made or lost.
pub struct Exchange<P> {
    of: PhantomData<P>,
}

impl<P: Stepping> Play<(), Watch> for Exchange<P> {
    ghost use Rattle.frame_table.specs.Rule.{IsExchangedAs};

    ghost then = { IsExchangedAs P.kind };
}

/// A step that is always made.
pub struct Change<P> {
    of: PhantomData<P>,
}

impl<P: Stepping> Play<(), Watch> for Change<P> {
    ghost use Rattle.frame_table.specs.Rule.{IsChangedAs};

    ghost then = { IsChangedAs P.kind };
}

pub struct CutIn<P> {
    of: PhantomData<P>,
}

impl<P: Cutting> Split<Watch> for CutIn<P> {
    ghost use Rattle.frame_table.specs.Rule.{left_eye, right_eye};

    ghost left = { left_eye P.cut };

    ghost right = { right_eye P.cut };
}

pub struct TakeIn<P> {
    of: PhantomData<P>,
}

impl<P: Joining> Join<Watch> for TakeIn<P> {
    ghost use Rattle.frame_table.specs.Rule.{both_eyes, nobody};

    ghost both = { both_eyes P.join };

    ghost spent = { nobody };
}
