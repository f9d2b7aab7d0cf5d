//! The sizes of memory: frames in children, children in trees.

ghost use Rattle.std.specs.Prelude.{◌≡◌, ◌+◌, ◌-◌, ◌*◌, ◌/◌, ◌<◌, ◌≤◌, ◌↔◌};
ghost use Rattle.std.specs.Prelude.{Err, IsOk, IfOk, IfErr};
ghost use Rattle.frame_words.specs.Geometry.{child_frames, tree_frames, most_children, most_trees};
ghost use Rattle.frame_words.specs.Geometry.{most_cores, IsWithinLimits, IsForMachine, EndsInLastChild};
ghost use Rattle.frame_words.specs.Geometry.{trees_for, tree_size};

use super::fault::Fault;
use super::sizes::{
    CHILD_FRAMES, MOST_CHILDREN, MOST_CORES, MOST_TEXT_CORES, TREE_CHILDREN, TREE_FRAMES,
};

/// How many children and frames memory has, and how many cores use it. Only the last child may
/// have fewer frames than 512.
#[derive(Clone, Copy, Debug, PartialEq, Eq)]
pub struct Geometry {
    pub children: u32,
    pub cores: u32,
    pub frames: u32,
    pub ghost some_children: { 1 ≤ children },
    pub ghost few_children: { children ≤ most_children },
    pub ghost some_cores: { 1 ≤ cores },
    pub ghost few_cores: { cores ≤ most_cores },
    pub ghost last_child_begun: { child_frames * (children - 1) < frames },
    pub ghost frames_in_children: { frames ≤ child_frames * children },
}

impl Geometry {
    /// Whole children: 1 to 4,096 of them, used by 1 to 64 cores.
    pub fn new(children: u32, cores: u32) -> Result<Geometry, Fault>
        ensures within { IsOk result ↔ IsWithinLimits children cores }
        ensures made { IfOk result (λ g. (g.children ≡ children) × (g.cores ≡ cores)) }
        ensures whole { IfOk result (λ g. g.frames ≡ child_frames * children) }
        ensures refused { IfErr result (λ e. e ≡ Fault.BadGeometry) }
    {
        if cores > MOST_TEXT_CORES {
            return Err(Fault::BadGeometry);
        }
        Geometry::whole(children, cores)
    }

    /// So many frames, of which the last child may have fewer than 512. The numbers of children
    /// and cores are looked at first.
    pub fn with_frames(children: u32, cores: u32, frames: u32) -> Result<Geometry, Fault>
        ensures within { IsOk result ↔
            (IsWithinLimits children cores × EndsInLastChild children frames) }
        ensures made { IfOk result (λ g. (g.children ≡ children) × (g.cores ≡ cores)) }
        ensures frames { IfOk result (λ g. g.frames ≡ frames) }
        ensures sizes { (result ≡ Err Fault.BadGeometry) ↔ (¬ IsWithinLimits children cores) }
        ensures range { (result ≡ Err Fault.BadRange) ↔
            (IsWithinLimits children cores × (¬ EndsInLastChild children frames)) }
    {
        Geometry::new(children, cores)?;
        Geometry::for_machine(children, cores, frames)
    }

    /// The same for 1 to 1,024 cores: more than the program runs, and than the text of an image says.
    pub fn for_machine(children: u32, cores: u32, frames: u32) -> Result<Geometry, Fault>
        ensures within { IsOk result ↔
            (IsForMachine children cores × EndsInLastChild children frames) }
        ensures made { IfOk result (λ g. (g.children ≡ children) × (g.cores ≡ cores)) }
        ensures frames { IfOk result (λ g. g.frames ≡ frames) }
        ensures sizes { (result ≡ Err Fault.BadGeometry) ↔ (¬ IsForMachine children cores) }
        ensures range { (result ≡ Err Fault.BadRange) ↔
            (IsForMachine children cores × (¬ EndsInLastChild children frames)) }
    {
        let whole = Geometry::whole(children, cores)?;
        if frames > whole.frames || frames <= whole.frames - CHILD_FRAMES {
            return Err(Fault::BadRange);
        }
        Ok(Geometry {
            children,
            cores,
            frames,
        })
    }

    // Whole children, for a machine.
    fn whole(children: u32, cores: u32) -> Result<Geometry, Fault>
        ensures within { IsOk result ↔ IsForMachine children cores }
        ensures made { IfOk result (λ g. (g.children ≡ children) × (g.cores ≡ cores)) }
        ensures whole { IfOk result (λ g. g.frames ≡ child_frames * children) }
        ensures refused { IfErr result (λ e. e ≡ Fault.BadGeometry) }
    {
        if children < 1 || children > MOST_CHILDREN || cores < 1 || cores > MOST_CORES {
            return Err(Fault::BadGeometry);
        }
        let frames = CHILD_FRAMES * children;
        Ok(Geometry {
            children,
            cores,
            frames,
        })
    }

    pub fn children(&self) -> u32
        ensures value { result ≡ self.now.children }
        ensures limits { (1 ≤ result) × (result ≤ most_children) }
    {
        self.children
    }

    pub fn cores(&self) -> u32
        ensures value { result ≡ self.now.cores }
        ensures limits { (1 ≤ result) × (result ≤ most_cores) }
    {
        self.cores
    }

    /// The frames of memory; the frames of the last child that are not among them are never free.
    pub fn frames(&self) -> u32
        ensures value { result ≡ self.now.frames }
        ensures limits { (1 ≤ result) × (result ≤ child_frames * most_children) }
    {
        self.frames
    }

    pub fn trees(&self) -> u32
        ensures value { result ≡ trees_for self.now.children }
        ensures limits { (1 ≤ result) × (result ≤ most_trees) }
    {
        u32::div_ceil(self.children, TREE_CHILDREN)
    }

    /// The frames of the tree's children, counted whole.
    pub fn tree_size(&self, tree: u32) -> u32
        requires { tree < trees_for self.now.children }
        ensures value { result ≡ tree_size self.now.children tree }
        ensures limits { (child_frames ≤ result) × (result ≤ tree_frames) }
    {
        CHILD_FRAMES * TREE_CHILDREN.min(self.children - TREE_CHILDREN * tree)
    }
}

/// The child that the frame lies in.
pub fn child_of(frame: u32) -> u32
    ensures { result ≡ frame / child_frames }
{
    frame / CHILD_FRAMES
}

/// The tree that the frame lies in.
pub fn tree_of(frame: u32) -> u32
    ensures { result ≡ frame / tree_frames }
{
    frame / TREE_FRAMES
}
