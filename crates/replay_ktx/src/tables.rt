// The cases.
use replayed::Fault;

// A plain header, four bytes to a number: a plate of 8 by 8 texels at 4bpp behind 12 key/value bytes, so that its size word stands at 76,
// and its data at 80 to 111.
pub const PLAIN: [u32; 16] = [
    0x58544bab, 0xbb313120, 0x0a1a0a0d, 0x04030201, 0, 1, 0, 0x8c02, 0x1908, 8, 8, 0, 0, 1, 1, 12,
];

// The same with all fields turned: each number's four bytes the other way round. The identifier has no order to turn.
pub const TURNED: [u32; 16] = [
    0x58544bab, 0xbb313120, 0x0a1a0a0d, 0x01020304, 0, 0x01000000, 0, 0x028c0000, 0x08190000,
    0x08000000, 0x08000000, 0, 0, 0x01000000, 0x01000000, 0x0c000000,
];

// Places of a plain file, and the four bytes put there.
pub static PLACES: [(u32, u32); 83] = [
    // the identifier: each byte changed, all of it turned, and KTX 2's
    (0x00, 0x58544bac),
    (0x00, 0x58544cab),
    (0x00, 0x58554bab),
    (0x00, 0x59544bab),
    (0x00, 0xab4b5458),
    (0x04, 0xbb313121),
    (0x04, 0xbb313220),
    (0x04, 0xbb323120),
    (0x04, 0xbc313120),
    (0x04, 0xbb303220),
    (0x08, 0x0a1a0a0e),
    (0x08, 0x0a1a0b0d),
    (0x08, 0x0a1b0a0d),
    (0x08, 0x0b1a0a0d),
    // the byte order: turned alone, each byte changed, and other orders
    (0x0c, 0x01020304),
    (0x0c, 0x04030200),
    (0x0c, 0x04030301),
    (0x0c, 0x04020201),
    (0x0c, 0x05030201),
    (0x0c, 0x02010403),
    (0x0c, 0x03040102),
    (0x0c, 0x00000000),
    // the type, and its size, which has no effect
    (0x10, 0x00000001),
    (0x10, 0x00001401),
    (0x10, 0x01000000),
    (0x14, 0x00000000),
    (0x14, 0x00000004),
    (0x14, 0xffffffff),
    // the format
    (0x18, 0x00000001),
    (0x18, 0x00001908),
    (0x18, 0x01000000),
    // the internal format: PVRTC's, those beside them, other compressions, and the bytes turned. At 2bpp the size word is another's.
    (0x1c, 0x00000000),
    (0x1c, 0x00008bff),
    (0x1c, 0x00008c00),
    (0x1c, 0x00008c01),
    (0x1c, 0x00008c02),
    (0x1c, 0x00008c03),
    (0x1c, 0x00008c04),
    (0x1c, 0x000083f0),
    (0x1c, 0x00008d64),
    (0x1c, 0x00009137),
    (0x1c, 0x00009138),
    (0x1c, 0x00018c02),
    (0x1c, 0x028c0000),
    (0x1c, 0xffffffff),
    // the base format has no effect
    (0x20, 0x00000000),
    (0x20, 0x00001907),
    (0x20, 0xffffffff),
    // the sides, where the size word stays: not the need, or another picture with the same need
    (0x24, 0x00000007),
    (0x24, 0x00000009),
    (0x24, 0x00000010),
    (0x28, 0x00000005),
    (0x28, 0x00000004),
    (0x28, 0x0000000c),
    // the depth, array elements and faces
    (0x2c, 0x00000001),
    (0x2c, 0x01000000),
    (0x30, 0x00000001),
    (0x30, 0x01000000),
    (0x34, 0x00000000),
    (0x34, 0x00000002),
    (0x34, 0x00000006),
    (0x34, 0x01000001),
    // the levels have no effect
    (0x38, 0x00000000),
    (0x38, 0x00000002),
    (0x38, 0x00000009),
    (0x38, 0xffffffff),
    // more or fewer key/value bytes, so that others are the size word
    (0x3c, 0x0000000b),
    (0x3c, 0x0000000d),
    // what the key/value bytes are has no effect
    (0x40, 0x00000000),
    (0x40, 0xffffffff),
    (0x48, 0x58544bab),
    // the size word
    (0x4c, 0x00000000),
    (0x4c, 0x00000010),
    (0x4c, 0x0000001f),
    (0x4c, 0x00000021),
    (0x4c, 0x00000040),
    (0x4c, 0x01000020),
    (0x4c, 0x20000000),
    (0x4c, 0xffffffff),
    // the data: its first word, its last, and what is behind it, which has no effect
    (0x50, 0x00000000),
    (0x54, 0x7c017c01),
    (0x6c, 0x00000000),
    (0x70, 0x00000000),
];

// Key/value bytes, and where a plain file with so many ends.
pub static KEY_VALUES: [(u32, usize); 35] = [
    // few
    (0, 63),
    (0, 64),
    (0, 67),
    (0, 68),
    (0, 99),
    (0, 100),
    (0, 101),
    (1, 65),
    (1, 68),
    (1, 69),
    (1, 100),
    (1, 101),
    (2, 66000),
    (3, 66000),
    // as many as the program takes, and more
    (4095, 66000),
    (4096, 64),
    (4096, 4160),
    (4096, 4163),
    (4096, 4164),
    (4096, 4195),
    (4096, 4196),
    (4096, 66000),
    (4097, 64),
    (4097, 4164),
    (4097, 66000),
    (65932, 66000),
    (65933, 66000),
    (65536, 66000),
    // so many that a sum of 32 bits would wrap: past all, and to the front of the file
    (2147483647, 66000),
    (2147483648, 66000),
    (4294967227, 66000),
    (4294967228, 66000),
    (4294967232, 66000),
    (4294967292, 66000),
    (4294967295, 66000),
];

// Internal format, key/value bytes, width, height, size word, where the file ends, and how many words are lent.
// A row is an array, of which `Case` is made: a struct's would stand on nine lines.
pub static FORMAT_CASES: [[u32; 7]; 9] = [
    // each internal format
    [0x8bff, 12, 16, 8, 32, 66000, 8200],
    [0x8c00, 12, 8, 8, 32, 66000, 8200],
    [0x8c01, 12, 16, 8, 32, 66000, 8200],
    [0x8c02, 12, 8, 8, 32, 66000, 8200],
    [0x8c03, 12, 16, 8, 32, 66000, 8200],
    [0x8c04, 12, 16, 8, 32, 66000, 8200],
    // the size word of the other depth
    [0x8c02, 12, 16, 8, 32, 66000, 8200],
    [0x8c02, 12, 16, 8, 64, 66000, 8200],
    [0x8c03, 12, 16, 8, 64, 66000, 8200],
];

// The same, for the sides.
pub static SIDE_CASES: [[u32; 7]; 13] = [
    // no side may be 0; of a file without a size word that is said later
    [0x8c02, 0, 0, 8, 0, 64, 8200],
    [0x8c02, 12, 0, 8, 0, 66000, 8200],
    [0x8c02, 12, 8, 0, 0, 66000, 8200],
    [0x8c02, 12, 0, 0, 0, 66000, 0],
    [0x8c02, 12, 0, 8, 32, 66000, 8200],
    // sides at 2bpp: clipped, and no power of two
    [0x8c03, 12, 15, 8, 32, 66000, 8200],
    [0x8c03, 12, 17, 8, 48, 66000, 8200],
    [0x8c01, 12, 32, 5, 64, 66000, 8200],
    [0x8c01, 12, 25, 7, 64, 66000, 8200],
    // the same at 4bpp
    [0x8c02, 12, 5, 5, 32, 66000, 8200],
    [0x8c02, 12, 13, 8, 64, 66000, 8200],
    [0x8c02, 12, 9, 8, 48, 66000, 8200],
    [0x8c02, 12, 12, 12, 72, 66000, 8200],
];

// The same, for long sides.
pub static LONG_SIDES: [[u32; 7]; 10] = [
    [0x8c02, 12, 1024, 8, 4096, 66000, 8192],
    [0x8c02, 12, 8, 1024, 4096, 66000, 8192],
    [0x8c02, 12, 1025, 8, 4112, 66000, 8200],
    [0x8c02, 12, 8, 1025, 4112, 66000, 8200],
    [0x8c02, 12, 2048, 8, 8192, 66000, 16384],
    [0x8c02, 12, 65536, 8, 262144, 66000, 8200],
    [0x8c02, 12, 65537, 8, 262160, 66000, 8200],
    [0x8c02, 12, 8, 65537, 262160, 66000, 8200],
    [0x8c02, 12, 65536, 65536, 0x80000000, 66000, 8200],
    [0x8c02, 12, 0xffffffff, 0xffffffff, 0, 66000, 8200],
];

// The same, for the ends of large files and the lent words.
pub static ROOM_CASES: [[u32; 7]; 16] = [
    // the largest files that the program takes, a byte less, and larger ones that the library takes
    [0x8c02, 4096, 256, 256, 32768, 36932, 65536],
    [0x8c03, 4096, 1024, 128, 32768, 36932, 131072],
    [0x8c03, 4096, 1024, 128, 32768, 36931, 131072],
    [0x8c02, 12, 964, 68, 32776, 66000, 131072],
    [0x8c01, 12, 1024, 129, 33792, 66000, 131072],
    [0x8c02, 12, 512, 256, 65536, 65616, 131072],
    [0x8c02, 12, 512, 256, 65536, 65615, 131072],
    [0x8c02, 12, 512, 256, 65536, 65616, 131071],
    // no bytes behind the data; more words than texels, as many, and fewer
    [0x8c02, 12, 8, 8, 32, 112, 65],
    [0x8c02, 12, 8, 8, 32, 112, 64],
    [0x8c02, 12, 8, 8, 32, 112, 63],
    [0x8c02, 12, 8, 8, 32, 112, 0],
    [0x8c02, 12, 5, 5, 32, 112, 25],
    [0x8c02, 12, 5, 5, 32, 112, 24],
    [0x8c03, 12, 16, 8, 32, 112, 128],
    [0x8c03, 12, 16, 8, 32, 112, 127],
];

// The same for pictures of one block across or down, of which a file stores two: each with the need of the blocks that cover it, which gets 36, and with
// that of the stored grid.
pub static TINY: [[u32; 7]; 28] = [
    // one block, or two
    [0x8c02, 12, 4, 4, 8, 88, 16],
    [0x8c02, 12, 4, 4, 32, 112, 16],
    [0x8c02, 12, 1, 1, 8, 88, 1],
    [0x8c02, 12, 1, 1, 32, 112, 1],
    [0x8c02, 12, 8, 4, 16, 96, 32],
    [0x8c02, 12, 8, 4, 32, 112, 32],
    [0x8c03, 12, 8, 4, 8, 88, 32],
    [0x8c03, 12, 8, 4, 32, 112, 32],
    [0x8c03, 12, 8, 8, 16, 96, 64],
    [0x8c03, 12, 8, 8, 32, 112, 64],
    [0x8c03, 12, 16, 4, 16, 96, 64],
    [0x8c03, 12, 16, 4, 32, 112, 64],
    // one block, whose size word or data is a byte less, or whose words are too few, or more than enough
    [0x8c02, 12, 4, 4, 31, 112, 16],
    [0x8c02, 12, 4, 4, 32, 111, 16],
    [0x8c02, 12, 4, 4, 32, 112, 15],
    [0x8c02, 12, 4, 4, 32, 112, 25],
    // the longest that the program takes, and longer ones that the library takes
    [0x8c02, 12, 1024, 4, 2048, 4176, 4096],
    [0x8c02, 12, 1024, 4, 4096, 4176, 4096],
    [0x8c02, 12, 1024, 4, 4096, 4175, 4096],
    [0x8c02, 12, 1, 1024, 4096, 4176, 1024],
    [0x8c03, 12, 1024, 1, 2048, 2128, 1024],
    [0x8c02, 12, 16384, 4, 65536, 65616, 65536],
    [0x8c02, 12, 16384, 4, 65536, 65615, 65536],
    [0x8c02, 12, 65536, 1, 131072, 66000, 65536],
    [0x8c02, 12, 65536, 1, 262144, 66000, 65536],
    // three blocks, six of which are stored
    [0x8c02, 12, 9, 4, 24, 104, 36],
    [0x8c02, 12, 9, 4, 48, 128, 36],
    [0x8c03, 12, 4, 9, 48, 128, 36],
];

// The refusals in an order that has both the library's and the program's.
pub static ORDER: [Fault; 15] = [
    Fault::ShortKtxHeader,
    Fault::NotKtx,
    Fault::OtherByteOrder,
    Fault::UnknownKtxFormat,
    Fault::NotOnePlate,
    Fault::MuchSkipped,
    Fault::CutShort,
    Fault::ZeroSide,
    Fault::LargeSide,
    Fault::LongSide,
    Fault::LargeNeed,
    Fault::OtherSize,
    Fault::ShortData,
    Fault::ShortImage,
    Fault::NotPowerOfTwo,
];
