//! Closing zones.

ghost use Rattle.std.specs.Prelude.{◌≡◌, ◌+◌, ◌<◌, ◌≤◌, IfOk, IfErr, vec_len};
ghost use Rattle.std.specs.List.{All};
ghost use Rattle.frame_words.specs.declared.fault.Fault.TheVariants.{MissingCores};
ghost use Rattle.frame_table.specs.Closing.{IsUnclosedFor};
ghost use Rattle.frame_zones.specs.Zones.{zone_count, HasCoresIn};
ghost use Rattle.frame_zones.specs.Closing.{AreClosedFrom, AreLeft, AreAllLeft, HasClosedLast};

use crate::image::ZoneImage;
use crate::last_zone::{gather, put_back};
use crate::row::Row;
use crate::zones::{ZoneCore, Zones};
use frame_words::Fault;
use std::alloc::Global;
use std::fmt::{self, Debug, Formatter, Write};
use thiserror::Error;

/// Zones of which some were not closed. These and the cores are as they were there.
#[derive(Drop, Error)]
#[error("the zones were not all closed: {fault}")]
pub struct ZonesFault {
    /// `MissingCores` or `NoMemory`.
    pub fault: Fault,
    /// The zones that are left, the first ones.
    pub zones: Zones,
    pub cores: Vec<ZoneCore>,
    /// The images of the zones behind these, in order.
    pub images: Vec<ZoneImage>,
}

impl Debug for ZonesFault {
    fn fmt<W: Write>(&self, f: &mut Formatter<W>) -> fmt::Result {
        f.debug_struct("ZonesFault")
            .field("fault", &self.fault)
            .finish_non_exhaustive()
    }
}

impl Zones {
    /// An image of each zone, in order, once all cores are handed in. Refused as `MissingCores`, with
    /// no zone closed, else for lack of memory: then some of the last zones may have been closed, and
    /// the others can still be.
    pub fn close(
        self,
        alloc: Global,
        mut cores: Vec<ZoneCore>,
    ) -> Result<Vec<ZoneImage>, ZonesFault>
        requires { All (HasCoresIn self.zones.items) cores.items }
        ensures closed { IfOk result (λ images. AreClosedFrom 0 self cores.items images.items) }
        ensures refused { IfErr result (λ e. IsUnclosedFor self.cores (vec_len cores) e.fault) }
        ensures missing { IfErr result (λ e. e.fault ≡ MissingCores
            → (e.zones ≡ self) × (e.cores ≡ cores)) }
        ensures left { IfErr result (λ e. AreLeft self cores.items e.zones e.cores.items) }
        ensures images { IfErr result (λ e.
            AreClosedFrom (zone_count e.zones) self cores.items e.images.items) }
    {
        if cores.len() < self.cores as usize {
            return Err(ZonesFault {
                fault: Fault::MissingCores,
                zones: self,
                cores,
                images: Vec::new(alloc),
            });
        }
        let Ok(mut images) = Vec::with_capacity(alloc, self.count()) else {
            return Err(ZonesFault {
                fault: Fault::NoMemory,
                zones: self,
                cores,
                images: Vec::new(alloc),
            });
        };
        let mut zones = self;
        while zones.count() > 0 {
            match zones.close_last(alloc, &mut cores) {
                Ok((left, image)) => {
                    zones = left;
                    images.push_reserved(image);
                }
                Err(rest) => {
                    images.reverse();
                    return Err(ZonesFault {
                        fault: Fault::NoMemory,
                        zones: rest,
                        cores,
                        images,
                    });
                }
            }
        }
        images.reverse();
        Ok(images)
    }

    // Closes the last zone. For lack of memory all is as it was.
    fn close_last(
        self,
        alloc: Global,
        cores: &mut Vec<ZoneCore>,
    ) -> Result<(Zones, ZoneImage), Zones>
        requires some { 0 < zone_count self }
        requires cores { All (HasCoresIn self.zones.items) cores.old.items }
        requires enough { self.cores ≤ vec_len cores.old }
        ensures closed { IfOk result (λ r.
            HasClosedLast self cores.old.items r.0 cores.new.items r.1) }
        ensures same { IfErr result (λ zones.
            AreAllLeft self cores.old.items zones cores.new.items) }
    {
        let Ok(parts) = Vec::with_capacity(alloc, cores.len()) else {
            return Err(self);
        };
        let Zones {
            zones,
            mut firsts,
            mut frames,
            cores: count,
            ..
        } = self;
        let mut zones = zones.into_list();
        let Some(zone) = zones.pop() else {
            unreachable!()
        };
        let Some(first) = firsts.pop() else {
            unreachable!()
        };
        let Some(last_frames) = frames.pop() else {
            unreachable!()
        };
        let parts = gather(cores, parts);
        match zone.close(alloc, parts) {
            Ok(image) => {
                let left = Zones {
                    zones: Row::of(zones),
                    firsts,
                    frames,
                    cores: count,
                };
                Ok((left, ZoneImage { first, image }))
            }
            Err(e) => {
                zones.push_reserved(e.allocator);
                firsts.push_reserved(first);
                frames.push_reserved(last_frames);
                put_back(cores, e.cores);
                Err(Zones {
                    zones: Row::of(zones),
                    firsts,
                    frames,
                    cores: count,
                })
            }
        }
    }
}
