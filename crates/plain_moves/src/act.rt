//! Moves as data, by their arguments.

/// A move but for what was seen: an exchange takes its word as it stands.
#[derive(Clone, Copy, Debug, PartialEq, Eq)]
pub enum Act {
    Charge { child: u32, n: u32 },
    Refund { child: u32, n: u32 },
    Claim { word: u32, mask: u64 },
    Release { word: u32, mask: u64 },
    TakeHuge { child: u32 },
    GiveHuge { child: u32 },
    HandOut { frame: u32, order: u8 },
    /// Of a block that a stranger handed out.
    HandIn { frame: u32, order: u8 },
    TreePay { tree: u32, n: u32 },
    TreeRefund { tree: u32, n: u32 },
    Reserve { tree: u32 },
    SwapLocal { core: u32, put: Option<(u32, u32)> },
    Unreserve { tree: u32, n: u32 },
    LocalPay { core: u32, n: u32 },
    LocalRefund { core: u32, n: u32 },
    Collect { tree: u32 },
    FillWord { word: u32 },
    DropFlag { child: u32 },
}
