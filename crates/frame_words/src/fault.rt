//! Why a call was refused, with the text of each refusal.

ghost use Rattle.std.specs.Prelude.{◌≡◌};
ghost use Rattle.frame_words.specs.Faults.{fault_of};
ghost use Rattle.frame_words.specs.declared.fault.Fault.TheVariants.{NoMemory};

use std::alloc::{AllocError, AllocFailed};
use thiserror::Error;

/// Why a call was refused. A `line` is the number of a record, counted from 1.
#[derive(Clone, Copy, Debug, PartialEq, Eq, Error)]
pub enum Fault {
    #[error("bad geometry")]
    BadGeometry,
    #[error("no memory")]
    NoMemory,
    #[error("bad order")]
    BadOrder,
    #[error("no block")]
    NoBlock,
    #[error("contended")]
    Contended,
    #[error("not held")]
    NotHeld,
    #[error("missing cores")]
    MissingCores,
    #[error("bad trace at record {line}")]
    BadTrace { line: u32 },
    #[error("read failed")]
    ReadFailed,
    #[error("write failed")]
    WriteFailed,
    #[error("bad image at record {line}")]
    BadImage { line: u32 },
    #[error("bad range")]
    BadRange,
}

/// Why no block was taken.
#[derive(Clone, Copy, Debug, PartialEq, Eq, Error)]
pub enum TakeFault {
    #[error("bad order")]
    BadOrder,
    #[error("no block")]
    NoBlock,
    #[error("contended")]
    Contended,
}

impl From<AllocError> for Fault {
    ghost from_gives = { λ _ fault. fault ≡ NoMemory };

    fn from(_error: AllocError) -> Fault {
        Fault::NoMemory
    }
}

impl<T: Drop> From<AllocFailed<T>> for Fault {
    ghost from_gives = { λ _ fault. fault ≡ NoMemory };

    fn from(_error: AllocFailed<T>) -> Fault {
        Fault::from(AllocError)
    }
}

impl From<TakeFault> for Fault {
    ghost from_gives = { λ refusal fault. fault ≡ fault_of refusal };

    fn from(refusal: TakeFault) -> Fault {
        match refusal {
            TakeFault::BadOrder => Fault::BadOrder,
            TakeFault::NoBlock => Fault::NoBlock,
            TakeFault::Contended => Fault::Contended,
        }
    }
}
