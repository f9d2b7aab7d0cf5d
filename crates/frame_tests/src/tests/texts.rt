//! Texts of images, in which whole words are written short.

use frame_words::Fault;
use std::alloc::Global;

/// Three frames are held, and every counter is 0.
pub const HURT: &str =
    "llfree,1,1,1,\nchild,0,0,0,0000000000000007ZZZZZZZ\ntree,0,0,0,\ncore,0,,,\n";

/// A huge frame that was being split: its flag stands beside a bit.
pub const SPLIT: &str =
    "llfree,1,1,1,\nchild,0,0,1,0000000000000001ZZZZZZZ\ntree,0,0,0,\ncore,0,,,\n";

/// A memory of 300 frames.
pub const CUT: &str = "llfree,2,1,1,300\nchild,0,300,0,ZZZZfffff00000000000XXX\ntree,0,300,0,\n\
    core,0,,,\n";

/// The same, of which the first four frames are held.
pub const CUT_IN_USE: &str =
    "llfree,2,1,1,300\nchild,0,296,0,000000000000000fZZZfffff00000000000XXX\n\
    tree,0,296,0,\ncore,0,,,\n";

// A Z stands for a word of which no frame is held, an X for one of which all are.
pub fn spelled(alloc: Global, short: &str) -> Result<Vec<u8>, Fault> {
    let mut text = Vec::new(alloc);
    for byte in short.as_bytes() {
        match *byte {
            b'Z' => text.extend_from_slice(b"0000000000000000")?,
            b'X' => text.extend_from_slice(b"ffffffffffffffff")?,
            other => text.push(other)?,
        }
    }
    Ok(text)
}
