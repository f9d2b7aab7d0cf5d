//! A machine with two nodes, each with memory of its own, and a hole between them: no frame of the hole
//! is ever handed out.

ghost use Rattle.std.specs.Prelude.{◌≡◌, ◌^◌, IfOk, IfSome};
ghost use Rattle.std.specs.List.{All};
ghost use Rattle.frame_table.specs.Seats.{block_in};
ghost use Rattle.frame_zones.specs.Zones.{AreCoresOf, IsOutOfItsZone};
ghost use Rattle.llfree_example.specs.Nodes.{AreNodes, LiesOnNode, IsOnNode};

use frame_words::{Fault, Geometry, TakeFault};
use frame_zones::{Span, ZoneBlock, ZoneCore, Zones, blocks_lie_in_zones};
use std::alloc::Global;

/// The first frame of the second node.
const SECOND_NODE: u64 = 4194304;

/// What is told of the two nodes.
#[derive(Clone, Copy)]
pub(crate) struct Told {
    /// The first frames of two blocks, one through each core.
    pub(crate) frames: (u64, u64),
    /// How many frames are free while both are out.
    pub(crate) free: u64,
}

/// A node of 4 GiB from this frame on.
fn node(alloc: Global, first: u64) -> Result<Span, Fault>
    ensures first { IfOk result (λ s. s.first ≡ first) }
    ensures children { IfOk result (λ s. s.geometry.children ≡ 2048) }
{
    Ok(Span {
        first,
        geometry: Geometry::new(2048, 2)?,
        ranges: Vec::new(alloc),
    })
}

/// Two nodes, one from frame 0 and one from frame 4,194,304 on, and two cores, of which each begins
/// its takes in a node of its own.
fn open(alloc: Global) -> Result<(Zones, Vec<ZoneCore>), Fault>
    ensures nodes { IfOk result (λ r. AreNodes r.0) }
    ensures cores { IfOk result (λ r. All (AreCoresOf r.0) r.1.items) }
{
    let lower = node(alloc, 0)?;
    let upper = node(alloc, SECOND_NODE)?;
    let mut nodes = Vec::with_capacity(alloc, 2)?;
    nodes.push_reserved(lower);
    nodes.push_reserved(upper);
    Zones::open(alloc, 2, &nodes)
}

fn next_core(zones: &Zones, cores: &mut Vec<ZoneCore>) -> Option<ZoneCore>
    requires { All (AreCoresOf zones.now) cores.old.items }
    ensures core { IfSome result (AreCoresOf zones.now) }
    ensures left { All (AreCoresOf zones.now) cores.new.items }
{
    let _ = zones;
    cores.pop()
}

/// A block of the core's own node, else of the other.
fn take(zones: &Zones, core: &mut ZoneCore, order: u8) -> Result<ZoneBlock, TakeFault>
    requires nodes { AreNodes zones.now }
    requires core { AreCoresOf zones.now core.old }
    ensures core { AreCoresOf zones.now core.new }
    ensures out { IfOk result (IsOutOfItsZone zones.now) }
    ensures on_node { IfOk result (λ b. LiesOnNode (2 ^ (block_in b.block).order) zones.now b) }
{
    let block = zones.take(core, order)?;
    blocks_lie_in_zones(zones, &block, &block);
    Ok(block)
}

/// A block of eight frames of each node; each is given through the core that did not take it.
#[tactic(auto, using(crate::proofs::TwoNodes::first_on_node))]
pub(crate) fn two_nodes(alloc: Global) -> Result<Told, Fault>
    ensures { IfOk result (λ told. IsOnNode told.frames.0 × IsOnNode told.frames.1) }
{
    let (zones, mut cores) = open(alloc)?;
    let mut second = next_core(&zones, &mut cores).ok_or(Fault::MissingCores)?;
    let mut first = next_core(&zones, &mut cores).ok_or(Fault::MissingCores)?;
    let one = take(&zones, &mut first, 3)?;
    let other = take(&zones, &mut second, 3)?;
    let frames = (zones.frame_of(&one), zones.frame_of(&other));
    let free = zones.free_frames(&mut first);
    zones.give(&mut first, other);
    zones.give(&mut second, one);
    Ok(Told { frames, free })
}
