//! The zones of a memory, and a core of all of them.

ghost use Rattle.frame_zones.specs.Sizes.{AreLaidOut, AreSized, HaveCores};

use crate::row::Row;
use core_frames::{Allocator, Core};

/// Gives out blocks of one memory, which may have more frames than one allocator, and holes.
#[derive(Drop)]
pub struct Zones {
    pub zones: Row<Allocator>,
    /// The first frame of each among all of the memory.
    pub firsts: Vec<u64>,
    /// How many frames each has.
    pub frames: Vec<u32>,
    /// How many cores each has.
    pub cores: u32,
    pub ghost laid_out: { AreLaidOut zones.items firsts.items },
    pub ghost sized: { AreSized zones.items frames.items },
    pub ghost same_cores: { HaveCores cores zones.items },
}

/// How many orders there are.
pub const ORDERS: usize = 10;

/// What one thread takes and gives through: a core of each zone.
#[derive(Drop)]
pub struct ZoneCore {
    pub cores: Vec<Core>,
    /// The zone where takes begin, unless another one served takes of the order of late.
    pub home: u32,
    /// Where takes of each order begin for a while.
    pub stays: [Stay; ORDERS],
}

/// So many takes more begin in this zone, and not at home.
#[derive(Clone, Copy, Debug)]
pub struct Stay {
    pub zone: u32,
    pub left: u32,
}

impl Stay {
    /// None: takes begin at home.
    pub const NONE: Stay = Stay { zone: 0, left: 0 };
}
