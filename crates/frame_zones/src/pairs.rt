//! Two cores of all zones for one thread: so small blocks and huge frames come from trees of their own.

ghost use Rattle.std.specs.Prelude.{◌≡◌, ◌+◌, ◌*◌, ◌%◌, ◌<◌, ◌≤◌, [], IfOk, IfErr, length, vec_len, vec_capacity};
ghost use Rattle.std.specs.List.{All};
ghost use Rattle.core_frames.specs.Bounds.{most_in_give, most_in_split};
ghost use Rattle.frame_words.specs.Geometry.{child_frames};
ghost use Rattle.frame_table.specs.Seats.{block_in};
ghost use Rattle.frame_zones.specs.FreeCounts.{free_frames_in, free_huge_in, HasReadEntries, IsCountAmong};
ghost use Rattle.frame_zones.specs.FreeCounts.{frames_among, entry_words_among};
ghost use Rattle.frame_zones.specs.Homes.{MovesHome};
ghost use Rattle.frame_zones.specs.Pairs.{core_for, core_for_block, cores_of_pairs, ArePairOf, StayPairFor, IsPairFrom};
ghost use Rattle.frame_zones.specs.Pairs.{ArePaired, ArePairsOf};
ghost use Rattle.frame_zones.specs.Places.{TakesPlaceAmong, MovesForPlace};
ghost use Rattle.frame_zones.specs.Splits.{SplitsIn};
ghost use Rattle.frame_zones.specs.Stays.{BeginsAndStays};
ghost use Rattle.frame_zones.specs.Uses.{TakesAmong, moves_through, most_moves_among};
ghost use Rattle.frame_zones.specs.Uses.{GivesIn, GivesAloneIn, IsGivenFor, MovesAtMost};
ghost use Rattle.frame_zones.specs.Zones.{zone_count, AreCoresOf, InEach, IsOutOfItsZone};

use crate::block::{GivenBlock, ZoneBlock};
use crate::openings::home_of;
use crate::zones::{ZoneCore, Zones};
use frame_words::{HUGE_ORDER, TakeFault};
use std::alloc::Global;

/// What one thread takes and gives through where it wants huge frames beside small blocks: a core for
/// each. One core reserves one tree for all orders, so its small blocks cut up the huge frames that are
/// left there. A pair sets up to two trees of a zone aside: with fewer than four trees for each pair in
/// some zone, single cores refuse less.
#[derive(Drop)]
pub struct PairCore {
    /// For orders 0 to 8, and for all calls on no block.
    pub small: ZoneCore,
    /// For order 9.
    pub huge: ZoneCore,
}

impl PairCore {
    /// Takes a block of `2^order` frames through the core for the order, as [`Zones::take`] does.
    #[inline(always)]
    pub fn take(&mut self, zones: &Zones, order: u8) -> Result<ZoneBlock, TakeFault>
        requires { ArePairOf zones.now self.old }
        ensures pair { StayPairFor zones.now order self.old self.new }
        ensures takes { TakesAmong zones.now order result (core_for order self.old) (core_for order self.new) }
        ensures stays { BeginsAndStays zones.now order result (core_for order self.old) (core_for order self.new) }
        ensures all_moves { moves_through (core_for order self.new)
            ≤ moves_through (core_for order self.old) + most_moves_among zones.now }
    {
        if order == HUGE_ORDER {
            zones.take(&mut self.huge, order)
        } else {
            zones.take(&mut self.small, order)
        }
    }

    /// Takes just the block of `2^order` frames that begins at `frame`, by its number among those of all
    /// zones, through the core for the order, as [`Zones::take_at`] does.
    pub fn take_at(&mut self, zones: &Zones, frame: u64, order: u8) -> Result<ZoneBlock, TakeFault>
        requires { ArePairOf zones.now self.old }
        ensures pair { StayPairFor zones.now order self.old self.new }
        ensures takes { TakesPlaceAmong zones.now frame order result (core_for order self.old)
            (core_for order self.new) }
        ensures all_moves { MovesForPlace zones.now frame (core_for order self.old) (core_for order self.new) }
    {
        if order == HUGE_ORDER {
            zones.take_at(&mut self.huge, frame, order)
        } else {
            zones.take_at(&mut self.small, frame, order)
        }
    }

    /// Gives the block back through the core for its order, whichever core took it. It always succeeds,
    /// and says which one it was.
    #[inline(always)]
    pub fn give(&mut self, zones: &Zones, block: ZoneBlock) -> GivenBlock
        requires pair { ArePairOf zones.now self.old }
        requires block { IsOutOfItsZone zones.now block }
        ensures pair { StayPairFor zones.now (block_in block.block).order self.old self.new }
        ensures gives { GivesIn zones.now block.zone (core_for_block block self.old) (core_for_block block self.new) }
        ensures alone { GivesAloneIn zones.now block (core_for_block block self.old) (core_for_block block self.new) }
        ensures given { IsGivenFor block result }
        ensures moves { MovesAtMost most_in_give block.zone (core_for_block block self.old)
            (core_for_block block self.new) }
        ensures all_moves { moves_through (core_for_block block self.new)
            ≤ moves_through (core_for_block block self.old) + most_in_give }
    {
        if block.order() == HUGE_ORDER {
            zones.give(&mut self.huge, block)
        } else {
            zones.give(&mut self.small, block)
        }
    }

    /// The halves of the block, the lower first, through the core for its order. A block of order 0 has
    /// none, and is handed back.
    pub fn split(
        &mut self,
        zones: &Zones,
        block: ZoneBlock,
    ) -> Result<(ZoneBlock, ZoneBlock), ZoneBlock>
        requires pair { ArePairOf zones.now self.old }
        requires block { IsOutOfItsZone zones.now block }
        ensures pair { StayPairFor zones.now (block_in block.block).order self.old self.new }
        ensures splits { SplitsIn zones.now block result (core_for_block block self.old)
            (core_for_block block self.new) }
        ensures moves { MovesAtMost most_in_split block.zone (core_for_block block self.old)
            (core_for_block block self.new) }
        ensures all_moves { moves_through (core_for_block block self.new)
            ≤ moves_through (core_for_block block self.old) + most_in_split }
    {
        if block.order() == HUGE_ORDER {
            zones.split(&mut self.huge, block)
        } else {
            zones.split(&mut self.small, block)
        }
    }

    /// How many frames are free in all zones, as [`Zones::free_frames`] counts them.
    pub fn free_frames(&mut self, zones: &Zones) -> u64
        requires { ArePairOf zones.now self.old }
        ensures pair { StayPairFor zones.now 0 self.old self.new }
        ensures reads { InEach zones.now HasReadEntries self.old.small self.new.small }
        ensures stays { self.new.small.stays ≡ self.old.small.stays }
        ensures sum { IsCountAmong free_frames_in zones.now self.new.small result }
        ensures few { result ≤ frames_among zones.now }
        ensures all_moves { moves_through self.new.small
            ≡ moves_through self.old.small + entry_words_among zones.now }
    {
        zones.free_frames(&mut self.small)
    }

    /// How many huge frames are free in all zones, in the same way.
    pub fn free_huge(&mut self, zones: &Zones) -> u64
        requires { ArePairOf zones.now self.old }
        ensures pair { StayPairFor zones.now 0 self.old self.new }
        ensures reads { InEach zones.now HasReadEntries self.old.small self.new.small }
        ensures stays { self.new.small.stays ≡ self.old.small.stays }
        ensures sum { IsCountAmong free_huge_in zones.now self.new.small result }
        ensures few { child_frames * result ≤ frames_among zones.now }
        ensures all_moves { moves_through self.new.small
            ≡ moves_through self.old.small + entry_words_among zones.now }
    {
        zones.free_huge(&mut self.small)
    }

    /// Takes of every order through the pair begin in this zone from now on.
    pub fn set_home(&mut self, zones: &Zones, zone: u32)
        requires pair { ArePairOf zones.now self.old }
        requires zone { zone < zone_count zones.now }
        ensures pair { ArePairOf zones.now self.new }
        ensures small { MovesHome zone self.old.small self.new.small }
        ensures huge { MovesHome zone self.old.huge self.new.huge }
    {
        zones.set_home(&mut self.small, zone);
        zones.set_home(&mut self.huge, zone);
    }
}

impl Zones {
    /// Pairs of all cores of an opening or of the first ones, which are even in number: of `2 * n` cores
    /// core `i` is for small blocks and core `n + i` for huge frames, so that these begin apart. The
    /// homes of the pairs lie evenly among the zones. For want of memory the cores are handed back.
    pub fn pair(
        &self,
        alloc: Global,
        mut cores: Vec<ZoneCore>,
    ) -> Result<Vec<PairCore>, Vec<ZoneCore>>
        requires cores { All (AreCoresOf self.now) cores.items }
        requires few { vec_len cores ≤ self.now.cores }
        requires even { vec_len cores % 2 ≡ 0 }
        ensures paired { IfOk result (λ pairs. ArePaired (zone_count self.now) cores.items pairs.items) }
        ensures pairs { IfOk result (λ pairs. All (ArePairOf self.now) pairs.items) }
        ensures same { IfErr result (λ same. same ≡ cores) }
    {
        let half = cores.len() / 2;
        let Ok(pairs) = Vec::with_capacity(alloc, half) else {
            return Err(cores);
        };
        let Ok(for_huge) = cores.split_off(half) else {
            return Err(cores);
        };
        Ok(self.paired(cores, for_huge, pairs))
    }

    // Each core of the first list with the one of the second that stands there.
    fn paired(
        &self,
        mut for_small: Vec<ZoneCore>,
        mut for_huge: Vec<ZoneCore>,
        mut pairs: Vec<PairCore>,
    ) -> Vec<PairCore>
        requires small { All (AreCoresOf self.now) for_small.items }
        requires huge { All (AreCoresOf self.now) for_huge.items }
        requires as_many { vec_len for_huge ≡ vec_len for_small }
        requires few { vec_len for_small ≤ self.now.cores }
        requires empty { pairs.items ≡ [] }
        requires room { vec_len for_small ≤ vec_capacity pairs }
        ensures paired { ArePairsOf (zone_count self.now) (length for_small.items) for_small.items
            for_huge.items result.items }
        ensures pairs { All (ArePairOf self.now) result.items }
    {
        let count = for_small.len() as u32;
        let zones = self.zones.len() as u32;
        for_small.reverse();
        for_huge.reverse();
        for number in 0..count {
            let Some(small) = for_small.pop() else {
                unreachable!()
            };
            let Some(huge) = for_huge.pop() else {
                unreachable!()
            };
            let home = home_of(number, count, zones);
            pairs.push_reserved(self.pair_at(small, huge, home));
        }
        pairs
    }

    // The home of both is this zone.
    fn pair_at(&self, mut small: ZoneCore, mut huge: ZoneCore, home: u32) -> PairCore
        requires small { AreCoresOf self.now small }
        requires huge { AreCoresOf self.now huge }
        requires home { home < zone_count self.now }
        ensures pair { ArePairOf self.now result }
        ensures from { IsPairFrom home small huge result }
    {
        self.set_home(&mut small, home);
        self.set_home(&mut huge, home);
        PairCore { small, huge }
    }

    /// The cores of the pairs, in the order of the opening, for a closing. For want of memory the pairs
    /// are handed back.
    pub fn unpair(
        &self,
        alloc: Global,
        pairs: Vec<PairCore>,
    ) -> Result<Vec<ZoneCore>, Vec<PairCore>>
        requires { All (ArePairOf self.now) pairs.items }
        ensures cores { IfOk result (λ cores. cores.items ≡ cores_of_pairs pairs.items) }
        ensures are_cores { IfOk result (λ cores. All (AreCoresOf self.now) cores.items) }
        ensures same { IfErr result (λ same. same ≡ pairs) }
    {
        let Ok(for_small) = Vec::with_capacity(alloc, 2 * pairs.len()) else {
            return Err(pairs);
        };
        let Ok(for_huge) = Vec::with_capacity(alloc, pairs.len()) else {
            return Err(pairs);
        };
        Ok(unpaired(pairs, for_small, for_huge))
    }
}

// The cores for small blocks, in order, and behind them those for huge frames.
fn unpaired(
    pairs: Vec<PairCore>,
    mut for_small: Vec<ZoneCore>,
    mut for_huge: Vec<ZoneCore>,
) -> Vec<ZoneCore>
    requires none { (for_small.items ≡ []) × (for_huge.items ≡ []) }
    requires room { vec_len pairs + vec_len pairs ≤ vec_capacity for_small }
    requires room_for_huge { vec_len pairs ≤ vec_capacity for_huge }
    ensures { result.items ≡ cores_of_pairs pairs.items }
{
    for pair in pairs {
        let PairCore { small, huge } = pair;
        for_small.push_reserved(small);
        for_huge.push_reserved(huge);
    }
    let Ok(()) = for_small.append(&mut for_huge) else {
        unreachable!()
    };
    for_small
}
