//! Images and their texts.

ghost use Rattle.std.specs.Prelude.{IfOk};
ghost use Rattle.frame_model.specs.Rebuilt.{IsRebuilt};
ghost use Rattle.frame_table.specs.Openings.{unsealed_key};

use crate::calls::{Calls, twice};
use crate::samples::{REBUILT, REPORT, STOPPED};
use frame_core::Image;
use frame_image::{
    Watched, held_frames, image_of, image_text, read_all, read_image, rebuild, reopen, report,
    report_text, write_image,
};
use frame_words::Fault;
use std::alloc::Global;

// The image with exact counters.
fn exact(alloc: Global, image: &Image) -> Result<Image, Fault>
    ensures { IfOk result (λ i. IsRebuilt (unsealed_key i.geometry) i.words i.words) }
{
    let rebuilt = rebuild(alloc, image)?;
    Ok(rebuilt)
}

impl Calls {
    /// An image with three held frames and exact counters.
    pub fn rebuilt_image(&mut self, alloc: Global) -> Result<Image, Fault>
        ensures { IfOk result (λ i. IsRebuilt (unsealed_key i.geometry) i.words i.words) }
    {
        let image = twice!(self, image_of(alloc, STOPPED))?;
        twice!(self, exact(alloc, &image))
    }

    fn read_text(&mut self, alloc: Global) -> Result<(), Fault> {
        let image = twice!(self, image_of(alloc, STOPPED))?;
        self.look(held_frames(&image) == 3);
        Ok(())
    }

    fn rebuild_image(&mut self, alloc: Global) -> Result<(), Fault> {
        let image = twice!(self, image_of(alloc, STOPPED))?;
        let rebuilt = twice!(self, rebuild(alloc, &image))?;
        self.look(held_frames(&rebuilt) == 3);
        Ok(())
    }

    fn text_of_image(&mut self, alloc: Global) -> Result<(), Fault> {
        let image = self.rebuilt_image(alloc)?;
        let text = twice!(self, image_text(alloc, &image))?;
        self.look(text.as_slice() == REBUILT);
        Ok(())
    }

    fn report_image(&mut self, alloc: Global) -> Result<(), Fault> {
        let image = self.rebuilt_image(alloc)?;
        let counted = twice!(self, report(alloc, &image))?;
        self.look(counted.all_held() == 3 && counted.all_free() == 509);
        Ok(())
    }

    fn text_of_report(&mut self, alloc: Global) -> Result<(), Fault> {
        let image = self.rebuilt_image(alloc)?;
        let counted = twice!(self, report(alloc, &image))?;
        let text = twice!(self, report_text(alloc, &counted))?;
        self.look(text.as_slice() == REPORT);
        Ok(())
    }

    fn read_bytes(&mut self, alloc: Global) -> Result<(), Fault> {
        let text = twice!(self, read_all(alloc, &mut Watched::new(STOPPED)))?;
        self.look(text.as_slice() == STOPPED);
        Ok(())
    }

    fn read_one_image(&mut self, alloc: Global) -> Result<(), Fault> {
        let image = twice!(self, read_image(alloc, &mut Watched::new(STOPPED)))?;
        self.look(held_frames(&image) == 3);
        Ok(())
    }

    fn write_one_image(&mut self, alloc: Global) -> Result<(), Fault> {
        let image = self.rebuilt_image(alloc)?;
        let mut written = self.room(alloc, REBUILT.len())?;
        {
            let mut output = Watched::new(&mut written);
            twice!(self, write_image(alloc, &mut output, &image))?;
        }
        self.look(written.as_slice() == REBUILT);
        Ok(())
    }

    fn reopen_image(&mut self, alloc: Global) -> Result<(), Fault> {
        let image = twice!(self, image_of(alloc, STOPPED))?;
        let (allocator, cores, mut survivors) = twice!(self, reopen(alloc, &image))?;
        let adopted = survivors.adopt(&allocator, 0, 1);
        self.look(cores.len() == 1 && adopted.is_ok());
        Ok(())
    }

    /// Each call on texts, once.
    pub fn make_on_texts(&mut self, alloc: Global) -> Result<(), Fault> {
        self.read_text(alloc)?;
        self.rebuild_image(alloc)?;
        self.text_of_image(alloc)?;
        self.report_image(alloc)?;
        self.text_of_report(alloc)?;
        self.read_bytes(alloc)?;
        self.read_one_image(alloc)?;
        self.write_one_image(alloc)?;
        self.reopen_image(alloc)
    }
}
