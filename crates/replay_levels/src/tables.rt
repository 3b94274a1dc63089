// The cases.
use replayed::Fault;

// Plain headers, four bytes to a number. What is chosen of a file is put into them.
pub const PVR: [u32; 13] = [0x03525650, 0, 3, 0, 0, 0, 8, 8, 1, 1, 1, 1, 0];

pub const KTX: [u32; 16] = [
    0x58544bab, 0xbb313120, 0x0a1a0a0d, 0x04030201, 0, 1, 0, 0x8c02, 0x1908, 8, 8, 0, 0, 1, 1, 0,
];

// Width, height, the number of levels that the header says, how many bytes of metadata or key/values are skipped; the level whose size word is
// another (99: none), and that word; the first asked level, and the one at which asking ends, 18 to 21 being large numbers.
// A row is an array, which is taken apart by name where it is read, as tools/replay_levels does: a struct's would stand on ten lines.
// These have all their levels, and nothing is wrong with them; a level whose blocks across or down are no power of two gets 5.
pub static FILES: [[u32; 8]; 9] = [
    [64, 64, 7, 0, 99, 0, 0, 9],
    [64, 64, 7, 0, 99, 0, 18, 22],
    [128, 8, 8, 13, 99, 0, 0, 10],
    [8, 128, 8, 1, 99, 0, 0, 10],
    [1, 1, 1, 2, 99, 0, 0, 3],
    [12, 12, 4, 3, 99, 0, 0, 6],
    [5, 5, 3, 15, 99, 0, 0, 5],
    [100, 60, 7, 7, 99, 0, 0, 9],
    [3, 200, 8, 6, 99, 0, 0, 10],
];

// The same for other numbers of levels.
pub static COUNTS: [[u32; 8]; 13] = [
    // fewer than are allowed
    [64, 64, 3, 5, 99, 0, 0, 4],
    [100, 60, 1, 0, 99, 0, 0, 2],
    // one too many, and as many as a field holds
    [64, 64, 8, 0, 99, 0, 0, 1],
    [64, 64, 8, 0, 99, 0, 7, 9],
    [64, 64, 0xffffffff, 0, 99, 0, 0, 1],
    [64, 64, 0xffffffff, 0, 99, 0, 21, 22],
    [1, 1, 2, 0, 99, 0, 0, 2],
    [5, 5, 4, 0, 99, 0, 0, 1],
    [12, 12, 5, 0, 99, 0, 4, 5],
    [128, 8, 9, 0, 99, 0, 8, 9],
    [8, 128, 9, 0, 99, 0, 8, 9],
    // none: in a KTX file it means one
    [64, 64, 0, 4, 99, 0, 0, 2],
    [12, 12, 0, 0, 99, 0, 0, 2],
];

// The same for sides at their limits. Of the largest plates only the front is there.
pub static SIDES: [[u32; 8]; 14] = [
    [0, 8, 1, 0, 99, 0, 0, 2],
    [8, 0, 1, 0, 99, 0, 0, 1],
    [0, 0, 0, 0, 99, 0, 0, 1],
    [65537, 8, 1, 0, 99, 0, 0, 2],
    [8, 65537, 18, 0, 99, 0, 1, 2],
    [0xffffffff, 0xffffffff, 0xffffffff, 0, 99, 0, 21, 22],
    [65536, 65536, 17, 0, 99, 0, 0, 2],
    [65536, 65536, 17, 0, 99, 0, 15, 18],
    [65536, 65536, 18, 0, 99, 0, 17, 18],
    [65536, 1, 17, 9, 99, 0, 0, 1],
    [65536, 1, 17, 9, 99, 0, 16, 18],
    [1, 65536, 17, 0, 99, 0, 16, 18],
    // as many skipped bytes as a field holds
    [64, 64, 7, 0xffffffff, 99, 0, 0, 2],
    [65536, 65536, 17, 0xffffffff, 99, 0, 16, 17],
];

// The same with one wrong size word, in KTX files alone: of every other level than the asked one it has no effect.
pub static WORDS: [[u32; 8]; 9] = [
    [16, 16, 5, 13, 0, 32, 0, 5],
    [16, 16, 5, 13, 0, 0, 0, 5],
    [16, 16, 5, 13, 0, 129, 0, 5],
    [16, 16, 5, 13, 0, 0x80000080, 0, 5],
    [16, 16, 5, 13, 1, 128, 0, 5],
    [16, 16, 5, 13, 1, 31, 0, 5],
    [16, 16, 5, 13, 2, 33, 0, 5],
    [16, 16, 5, 13, 3, 0, 0, 5],
    [16, 16, 5, 13, 4, 0xffffffff, 0, 5],
];

// The refusals in their order. Of a KTX file 37 is for the key/value bytes, and 137 the 37 for the asked level's size word.
pub static PVR_ORDER: [Fault; 15] = [
    Fault::ShortPvrHeader,
    Fault::NotPvr,
    Fault::UnknownFlags,
    Fault::UnknownPvrFormat,
    Fault::DepthNotOne,
    Fault::SurfacesNotOne,
    Fault::FacesNotOne,
    Fault::NoLevel,
    Fault::ZeroSide,
    Fault::LargeSide,
    Fault::TooManyLevels,
    Fault::NoSuchLevel,
    Fault::ShortData,
    Fault::ShortImage,
    Fault::NotPowerOfTwo,
];

pub static KTX_ORDER: [Fault; 15] = [
    Fault::ShortKtxHeader,
    Fault::NotKtx,
    Fault::OtherByteOrder,
    Fault::UnknownKtxFormat,
    Fault::NotOnePlate,
    Fault::CutShort,
    Fault::ZeroSide,
    Fault::LargeSide,
    Fault::TooManyLevels,
    Fault::NoSuchLevel,
    Fault::CutBeforeLevel,
    Fault::OtherSize,
    Fault::ShortData,
    Fault::ShortImage,
    Fault::NotPowerOfTwo,
];

// Flags of a PVR file: the two that are accepted, those beside them, the highest bit, and all of them.
pub static FLAGS: [u32; 6] = [0, 1, 2, 3, 0x80000000, 0xffffffff];
