// The cases.
use replayed::Fault;

// A plain header, four bytes to a number: a plate of 8 by 8 texels at 4bpp.
pub const PLAIN: [u32; 13] = [0x03525650, 0, 3, 0, 0, 0, 8, 8, 1, 1, 1, 1, 0];

// Places of the header, and the four bytes put there.
pub static FIELDS: [(u32, u32); 79] = [
    // the version: PVR's, each byte changed, and the bytes turned
    (0x00, 0x03525650),
    (0x00, 0x03525651),
    (0x00, 0x03525750),
    (0x00, 0x03535650),
    (0x00, 0x04525650),
    (0x00, 0x50565203),
    // the flags: 2 is accepted, as 0 is
    (0x04, 0x00000002),
    // one byte of the four wrong, and the others as in 0 or in 2
    (0x04, 0x00000004),
    (0x04, 0x00000080),
    (0x04, 0x00000100),
    (0x04, 0x00000102),
    (0x04, 0x00010000),
    (0x04, 0x00010002),
    (0x04, 0x01000000),
    (0x04, 0x01000002),
    // a 2 in another byte, by itself and beside the lowest one's; a 2 in each; and every bit
    (0x04, 0x00000200),
    (0x04, 0x00000202),
    (0x04, 0x00020000),
    (0x04, 0x00020002),
    (0x04, 0x02000000),
    (0x04, 0x02000002),
    (0x04, 0x02020202),
    (0x04, 0xffffffff),
    // the format's lower half
    (0x08, 0x00000000),
    (0x08, 0x00000001),
    (0x08, 0x00000002),
    (0x08, 0x00000003),
    (0x08, 0x00000004),
    (0x08, 0x00000100),
    (0x08, 0xffffffff),
    // the format's upper half
    (0x0c, 0x00000001),
    (0x0c, 0x80000000),
    // the colour space and the channel type have no effect
    (0x10, 0x00000001),
    (0x10, 0xffffffff),
    (0x14, 0x00000001),
    (0x14, 0xffffffff),
    // the height: 0, 1, 4, 7, 12, 512, 1,024 and more
    (0x18, 0x00000000),
    (0x18, 0x00000001),
    (0x18, 0x00000004),
    (0x18, 0x00000007),
    (0x18, 0x0000000c),
    (0x18, 0x00000200),
    (0x18, 0x00000400),
    (0x18, 0x00000401),
    (0x18, 0xffffffff),
    // the width: 0, 1, 4, 5, 9, 12, 13, 1,024 and more
    (0x1c, 0x00000000),
    (0x1c, 0x00000001),
    (0x1c, 0x00000004),
    (0x1c, 0x00000005),
    (0x1c, 0x00000009),
    (0x1c, 0x0000000c),
    (0x1c, 0x0000000d),
    (0x1c, 0x00000400),
    (0x1c, 0x00000401),
    (0x1c, 0xffffffff),
    // depth, surfaces and faces
    (0x20, 0x00000000),
    (0x20, 0x00000002),
    (0x20, 0x01000001),
    (0x24, 0x00000000),
    (0x24, 0x00000002),
    (0x24, 0x00000101),
    (0x28, 0x00000000),
    (0x28, 0x00000002),
    (0x28, 0x00000006),
    (0x28, 0x00010001),
    // the levels: none, and more than one
    (0x2c, 0x00000000),
    (0x2c, 0x00000002),
    (0x2c, 0x00000004),
    (0x2c, 0x01000000),
    (0x2c, 0xffffffff),
    // the metadata size: 0, 1, 99, 100, 4,095, 4,096, 4,097, 65,536 and more
    (0x30, 0x00000000),
    (0x30, 0x00000001),
    (0x30, 0x00000063),
    (0x30, 0x00000064),
    (0x30, 0x00000fff),
    (0x30, 0x00001000),
    (0x30, 0x00001001),
    (0x30, 0x00010000),
    (0x30, 0xffffffff),
];

// Metadata sizes, and where the file ends.
pub static ENDS: [(u32, usize); 8] = [
    (4096, 52),
    (4096, 4147),
    (4096, 4148),
    (4096, 4179),
    (4096, 4180),
    (4096, 4181),
    (4097, 52),
    (100, 102),
];

// Formats, widths and heights.
pub static SIZES: [(u32, u32, u32); 24] = [
    (3, 1, 1),
    (3, 5, 5),
    (2, 13, 8),
    (2, 9, 8),
    (2, 8, 12),
    (2, 12, 12),
    (2, 256, 256),
    (2, 1024, 64),
    (3, 64, 1024),
    (3, 964, 68),
    (3, 1024, 68),
    (3, 256, 257),
    (3, 1024, 1024),
    (1, 1, 1),
    (1, 16, 4),
    (0, 17, 4),
    (0, 32, 5),
    (0, 25, 7),
    (0, 512, 256),
    (0, 1024, 128),
    (1, 127, 1021),
    (1, 968, 136),
    (1, 1024, 129),
    (1, 1024, 1024),
];

// Pictures of one block across or down, of which a file stores two: formats, widths and heights, and where the file ends. The data begins
// at 4148. Each stands here with its need, and with a byte less.
pub static TINY: [(u32, u32, u32, usize); 26] = [
    // one block: 32 bytes, and the eight of the block that covers it
    (3, 4, 4, 4180),
    (3, 4, 4, 4179),
    (3, 4, 4, 4156),
    (2, 1, 1, 4180),
    (2, 1, 1, 4179),
    (1, 8, 4, 4180),
    (1, 8, 4, 4179),
    (1, 8, 4, 4156),
    // two blocks: 32 bytes
    (3, 8, 4, 4180),
    (3, 8, 4, 4179),
    (3, 4, 8, 4180),
    (3, 4, 8, 4179),
    (0, 16, 4, 4180),
    (0, 16, 4, 4179),
    (0, 8, 8, 4180),
    (0, 8, 8, 4179),
    // the longest: 4,096 bytes, and at 2bpp across 2,048
    (3, 1024, 4, 8244),
    (3, 1024, 4, 8243),
    (3, 1, 1024, 8244),
    (3, 1, 1024, 8243),
    (1, 1024, 1, 6196),
    (1, 1024, 1, 6195),
    // three blocks, six of which are stored: 48 bytes
    (3, 9, 4, 4196),
    (3, 9, 4, 4195),
    (1, 4, 9, 4196),
    (1, 4, 9, 4195),
];

// The refusals in their order.
pub static ORDER: [Fault; 14] = [
    Fault::ShortPvrHeader,
    Fault::NotPvr,
    Fault::UnknownFlags,
    Fault::UnknownPvrFormat,
    Fault::DepthNotOne,
    Fault::SurfacesNotOne,
    Fault::FacesNotOne,
    Fault::NoLevel,
    Fault::MuchSkipped,
    Fault::ZeroSide,
    Fault::LongSide,
    Fault::LargeNeed,
    Fault::ShortData,
    Fault::NotPowerOfTwo,
];

// Flags: the two that are accepted, those beside them, the highest bit, and all of them.
pub static FLAGS: [u32; 6] = [0, 1, 2, 3, 0x80000000, 0xffffffff];
