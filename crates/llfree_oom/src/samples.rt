//! The memories and texts that the calls are made on.

use frame_words::Geometry;

/// One child and one core.
pub const SMALL: Geometry = Geometry {
    children: 1,
    cores: 1,
    frames: 512,
};

/// Eight children and two cores.
pub const SHARED: Geometry = Geometry {
    children: 8,
    cores: 2,
    frames: 4096,
};

/// A range of eight frames.
pub const RANGES: [(u32, u32); 1] = [(8, 8)];

/// An image with three held frames, and counters that are all 0.
pub const STOPPED: &[u8] = b"llfree,1,1,1,\n\
    child,0,0,0,0000000000000007\
    0000000000000000000000000000000000000000000000000000000000000000\
    000000000000000000000000000000000000000000000000\n\
    tree,0,0,0,\n\
    core,0,,,\n";

/// The same image once it is rebuilt.
pub const REBUILT: &[u8] = b"llfree,1,1,1,\n\
    child,0,509,0,0000000000000007\
    0000000000000000000000000000000000000000000000000000000000000000\
    000000000000000000000000000000000000000000000000\n\
    tree,0,509,0,\n\
    core,0,,,\n";

/// The report of it.
pub const REPORT: &[u8] = b"tree,0,3,509,509,254,127,63,31,15,7,3,1,0\n\
    all,,3,509,509,254,127,63,31,15,7,3,1,0\n";

/// A trace for one core.
pub const TAKES: &[u8] = b"0,take,a,0\n0,take,b,3\n0,take,c,0\n";

/// Its answers.
pub const TAKES_ANSWERED: &[u8] =
    b"1,0,Taken,0,0\n2,0,Taken,8,3\n3,0,Taken,1,0\nend,,Closed,10,502\n";

/// A trace for two cores.
pub const MOVES: &[u8] = b"0,take,a,0\n,round,,\n0,move,a,1\n1,give,a,\n";

/// Its answers.
pub const MOVES_ANSWERED: &[u8] =
    b"1,0,Taken,0,0\n3,0,Moved,0,0\n4,1,Given,0,0\nend,,Closed,0,4096\n";
