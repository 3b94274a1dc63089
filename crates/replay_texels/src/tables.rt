// The cases.

// Widths and heights of pictures at 4bpp.
pub static SIZES_4BPP: [(usize, usize); 13] = [
    (4, 4),
    (1, 1),
    (3, 2),
    (4, 64),
    (64, 4),
    (8, 8),
    (5, 6),
    (13, 15),
    (14, 14),
    (15, 13),
    (8, 32),
    (32, 8),
    (64, 64),
];

// The same at 2bpp.
pub static SIZES_2BPP: [(usize, usize); 14] = [
    (8, 4),
    (1, 1),
    (3, 2),
    (8, 64),
    (64, 4),
    (16, 8),
    (13, 5),
    (29, 13),
    (30, 14),
    (31, 15),
    (25, 16),
    (16, 32),
    (64, 8),
    (128, 64),
];

// A kind of words: its name, the bits of a word that it decides, and those of them that are set.
#[derive(Clone, Copy)]
pub struct Kind {
    pub name: &'static str,
    pub decided: u64,
    pub set: u64,
}

// Bits 0 and 20 of the modulation, the mode, and whether A and B are opaque.
const BIT_0: u64 = 1;

const BIT_20: u64 = 1 << 20;

const BITS: u64 = BIT_0 | BIT_20;

const MODE: u64 = 1 << 32;

const OPAQUE_A: u64 = 1 << 47;

const OPAQUE_B: u64 = 1 << 63;

const OPAQUE: u64 = OPAQUE_A | OPAQUE_B;

pub static KINDS: [Kind; 10] = [
    Kind {
        name: "as drawn",
        decided: 0,
        set: 0,
    },
    Kind {
        name: "mode 0",
        decided: MODE,
        set: 0,
    },
    Kind {
        name: "mode 1",
        decided: MODE | BITS,
        set: MODE,
    },
    Kind {
        name: "mode 1, bit 0",
        decided: MODE | BITS,
        set: MODE | BIT_0,
    },
    Kind {
        name: "mode 1, bit 20",
        decided: MODE | BITS,
        set: MODE | BIT_20,
    },
    Kind {
        name: "mode 1, bits 0 and 20",
        decided: MODE | BITS,
        set: MODE | BITS,
    },
    Kind {
        name: "opaque",
        decided: OPAQUE,
        set: OPAQUE,
    },
    Kind {
        name: "translucent",
        decided: OPAQUE,
        set: 0,
    },
    Kind {
        name: "A opaque",
        decided: OPAQUE,
        set: OPAQUE_A,
    },
    Kind {
        name: "B opaque",
        decided: OPAQUE,
        set: OPAQUE_B,
    },
];

// The largest number of 64 bits.
const MOST: usize = 0xffffffffffffffff;

// Calls, each with how many bytes, the width at 4bpp, the width at 2bpp, the height, and the texel asked for.
// A row is an array, which is taken apart by name where it is read: a struct's would stand on eight lines.
pub static SIDES_AND_DATA: [[usize; 6]; 31] = [
    // a side is 0; also where a side is too large, where 3 blocks stand the other way, and where the texel lies outside
    [8, 0, 0, 4, 0, 0],
    [8, 4, 4, 0, 0, 0],
    [0, 0, 0, 0, 0, 0],
    [8, 0, 0, 65537, 0, 0],
    [8, 65537, 65537, 0, 0, 0],
    [8, 0, 0, 12, 0, 0],
    [8, 4, 4, 0, 4, 0],
    // a side is above 65,536; also where the data is short, where the blocks are no power of two, and where the texel lies outside
    [96, 65537, 65537, 4, 0, 0],
    [96, 4, 4, 65537, 0, 0],
    [0, 65537, 65537, 65537, 0, 0],
    [96, MOST, MOST, 4, 0, 0],
    [96, MOST, MOST, MOST, 0, 0],
    [96, 4, 4, 65537, 4, 65537],
    // a side of 65,536 is not refused for that, but there the data is short
    [96, 65536, 65536, 4, 0, 0],
    [96, 4, 4, 65536, 0, 0],
    [96, 65536, 65536, 65536, 0, 0],
    // the data is short: four blocks of 32 bytes, one of 8, and three of 24, which are no power of two
    [33, 8, 16, 8, 0, 0],
    [32, 8, 16, 8, 0, 0],
    [31, 8, 16, 8, 0, 0],
    [16, 8, 16, 8, 0, 0],
    [15, 8, 16, 8, 0, 0],
    [0, 8, 16, 8, 0, 0],
    [8, 4, 8, 4, 0, 0],
    [7, 4, 8, 4, 0, 0],
    [4, 4, 8, 4, 0, 0],
    [3, 4, 8, 4, 0, 0],
    [0, 4, 8, 4, 0, 0],
    [24, 12, 24, 4, 0, 0],
    [23, 12, 24, 4, 0, 0],
    [12, 12, 24, 4, 0, 0],
    [11, 12, 24, 4, 0, 0],
];

// The texel lies outside; also where the blocks are no power of two, and where a block goes on past the picture.
pub static OUTSIDE: [[usize; 6]; 10] = [
    [96, 16, 16, 8, 15, 7],
    [96, 16, 16, 8, 16, 0],
    [96, 16, 16, 8, 0, 8],
    [96, 16, 16, 8, 16, 8],
    [96, 16, 16, 8, MOST, 0],
    [96, 16, 16, 8, 0, MOST],
    [96, 24, 24, 4, 24, 4],
    [96, 6, 6, 5, 5, 4],
    [96, 6, 6, 5, 6, 4],
    [96, 6, 6, 5, 5, 5],
];
