//! The steps on words as data.

ghost use Rattle.std.specs.Prelude.{◌≡◌};
ghost use Rattle.frame_core.specs.Acts.{place_in};

use frame_model::Place;

/// One step on a word, but for what was seen there. A run of bits is its first bit and its order.
#[derive(Clone, Copy)]
pub enum Step {
    Charge { child: u32, n: u32 },
    Refund { child: u32, n: u32 },
    Claim { word: u32, bit: u32, order: u32 },
    ClaimSingles { word: u32, mask: u64 },
    Release { word: u32, bit: u32, order: u32 },
    TakeHuge { child: u32 },
    GiveHuge { child: u32 },
    TreePay { tree: u32, n: u32 },
    TreeRefund { tree: u32, n: u32 },
    Reserve { tree: u32 },
    SwapLocal { core: u32, put: Option<(u32, u32)> },
    Unreserve { tree: u32, n: u32 },
    LocalPay { core: u32, n: u32 },
    LocalRefund { core: u32, n: u32 },
    Collect { tree: u32 },
    FillWord { word: u32 },
    DropFlag { child: u32 },
}

impl Step {
    /// The word that changes.
    #[inline(always)]
    pub fn place(self) -> Place
        ensures { result ≡ place_in self }
    {
        match self {
            Step::Charge { child, .. }
            | Step::Refund { child, .. }
            | Step::TakeHuge { child }
            | Step::GiveHuge { child }
            | Step::DropFlag { child } => Place::Entry(child),
            Step::Claim { word, .. }
            | Step::ClaimSingles { word, .. }
            | Step::Release { word, .. }
            | Step::FillWord { word } => Place::Bits(word),
            Step::TreePay { tree, .. }
            | Step::TreeRefund { tree, .. }
            | Step::Reserve { tree }
            | Step::Unreserve { tree, .. }
            | Step::Collect { tree } => Place::Tree(tree),
            Step::SwapLocal { core, .. }
            | Step::LocalPay { core, .. }
            | Step::LocalRefund { core, .. } => Place::Local(core),
        }
    }
}
