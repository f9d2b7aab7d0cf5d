//! The numbers of frames among those of all zones.

ghost use Rattle.std.specs.Prelude.{◌≡◌, ◌<◌, IfSome, IfNone};
ghost use Rattle.frame_zones.specs.FreeCounts.{frames_among};
ghost use Rattle.frame_zones.specs.Frames.{IsFrameIn, IsInNoZone, IsNotIn, IsLastFrom, BeginBehind};
ghost use Rattle.frame_zones.specs.Spans.{most_zone_frames};
ghost use Rattle.frame_zones.specs.Zones.{zone_count, IsOutOfItsZone, first_frame_of, first_frame_in};

use crate::block::ZoneBlock;
use crate::zones::Zones;
use frame_core::HeldBlock;

impl Zones {
    /// The number of the block's first frame among all frames of the memory.
    pub fn frame_of(&self, block: &ZoneBlock) -> u64
        requires { IsOutOfItsZone self.now block.now }
        ensures frame { result ≡ first_frame_in self.now block.now }
        ensures inside { result < most_zone_frames }
    {
        self.first_of(block.zone) + u64::from(block.block.frame())
    }

    /// The zone that has the frame of this number, and the frame's number in it. The hinted zone is
    /// looked at first, and then the last one that begins at the frame or before it.
    pub fn zone_of(&self, hint: u32, frame: u64) -> Option<(u32, u32)>
        ensures found { IfSome result (λ r. IsFrameIn self.now frame r.0 r.1) }
        ensures none { IfNone result (IsInNoZone self.now frame) }
    {
        if let Some(local) = self.number_in(hint as usize, frame) {
            return Some((hint, local));
        }
        let zone = self.last_from(frame)?;
        let local = self.number_in(zone, frame)?;
        Some((zone as u32, local))
    }

    /// How many frames all zones have.
    pub fn frames(&self) -> u64
        ensures { result ≡ frames_among self.now }
    {
        let mut sum = 0;
        for frames in &self.frames {
            sum += u64::from(*frames);
        }
        sum
    }

    // The number of the frame in the zone, if there is such a zone, and it has the frame.
    fn number_in(&self, zone: usize, frame: u64) -> Option<u32>
        ensures found { IfSome result (IsFrameIn self.now frame zone) }
        ensures none { IfNone result (IsNotIn self.now frame zone) }
    {
        if zone >= self.zones.len() {
            return None;
        }
        let first = self.firsts[zone];
        if frame < first {
            return None;
        }
        let local = frame - first;
        if local >= u64::from(self.frames[zone]) {
            return None;
        }
        Some(local as u32)
    }

    /// The last zone that begins at the frame or before it.
    pub fn last_from(&self, frame: u64) -> Option<usize>
        ensures last { IfSome result (IsLastFrom self.now frame) }
        ensures none { IfNone result (BeginBehind self.now frame) }
    {
        match self.firsts.binary_search(&frame) {
            Ok(zone) => Some(zone),
            Err(0) => None,
            Err(past) => Some(past - 1),
        }
    }

    // The first frame of the zone.
    fn first_of(&self, zone: u32) -> u64
        requires { zone < zone_count self.now }
        ensures { result ≡ first_frame_of self.now zone }
    {
        self.firsts[zone as usize]
    }
}
