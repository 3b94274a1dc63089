// The cases.

// Widths and heights of pictures of sixteen blocks at 4bpp, one or two of them across or down: whole, then clipped.
pub static NARROW_4BPP: [(usize, usize); 8] = [
    (4, 64),
    (2, 61),
    (64, 4),
    (61, 3),
    (8, 32),
    (7, 30),
    (32, 8),
    (29, 5),
];

// The same at 2bpp.
pub static NARROW_2BPP: [(usize, usize); 8] = [
    (8, 64),
    (5, 61),
    (128, 4),
    (123, 2),
    (16, 32),
    (10, 29),
    (64, 8),
    (59, 6),
];

// Square and larger grids at 4bpp, of up to 256 blocks.
pub static LARGE_4BPP: [(usize, usize); 9] = [
    (16, 16),
    (13, 14),
    (14, 13),
    (4, 256),
    (256, 4),
    (8, 128),
    (128, 8),
    (30, 31),
    (64, 64),
];

// The same at 2bpp.
pub static LARGE_2BPP: [(usize, usize); 9] = [
    (16, 8),
    (9, 7),
    (32, 16),
    (25, 14),
    (28, 13),
    (16, 64),
    (128, 8),
    (60, 31),
    (128, 64),
];

// Pictures at 4bpp that are also decoded by the call with the depth in its name.
pub static NAMED_4BPP: [(usize, usize); 4] = [(4, 4), (3, 2), (5, 6), (15, 15)];

// The same at 2bpp.
pub static NAMED_2BPP: [(usize, usize); 4] = [(8, 4), (3, 2), (13, 5), (31, 15)];

// Pictures at 4bpp of which all rows are asked for.
pub static ROWS_4BPP: [(usize, usize); 7] = [
    (1, 1),
    (4, 4),
    (3, 16),
    (32, 2),
    (5, 6),
    (8, 16),
    (13, 15),
];

// The same at 2bpp.
pub static ROWS_2BPP: [(usize, usize); 7] = [
    (1, 1),
    (8, 4),
    (3, 16),
    (64, 1),
    (13, 5),
    (16, 8),
    (29, 13),
];

// The largest number of 64 bits.
const MOST: usize = 0xffffffffffffffff;

// Picture calls, each with how many bytes, how many words, the width at 4bpp, the width at 2bpp, and the height.
// A row is an array, which is taken apart by name where it is read: a struct's would stand on seven lines.
pub static PICTURE_CALLS: [[usize; 5]; 47] = [
    // a side is 0; also where the other is too large, and where it has three blocks
    [96, 16, 0, 0, 4],
    [96, 16, 4, 4, 0],
    [0, 0, 0, 0, 0],
    [96, 16, 0, 0, 65537],
    [96, 16, MOST, MOST, 0],
    [96, 16, 0, 0, 12],
    // a side is above 65,536; a side of 65,536 is not, but there the data is short
    [96, 16, 65537, 65537, 4],
    [96, 16, 4, 4, 65537],
    [0, 0, 65537, 65537, 65537],
    [96, 16, MOST, MOST, MOST],
    [96, 16, 65536, 65536, 4],
    [96, 16, 4, 4, 65536],
    [96, 16, 65536, 65536, 65536],
    // four blocks need 32 bytes; also where the image is short
    [32, 150, 8, 16, 8],
    [31, 150, 8, 16, 8],
    [16, 150, 8, 16, 8],
    [15, 150, 8, 16, 8],
    [0, 150, 8, 16, 8],
    [31, 63, 8, 16, 8],
    // one block needs 8 bytes
    [8, 50, 4, 8, 4],
    [7, 50, 4, 8, 4],
    [4, 50, 4, 8, 4],
    [3, 50, 4, 8, 4],
    [0, 50, 4, 8, 4],
    // three blocks need 24 bytes, and are no power of two; also where the image is short, and with three blocks down or both ways
    [24, 100, 12, 24, 4],
    [23, 100, 12, 24, 4],
    [12, 100, 12, 24, 4],
    [11, 100, 12, 24, 4],
    [23, 47, 12, 24, 4],
    [96, 47, 12, 24, 4],
    [96, 300, 8, 8, 12],
    [96, 300, 12, 24, 12],
    // data past the need of one block and of four
    [8, 20, 3, 3, 2],
    [9, 20, 3, 3, 2],
    [16, 20, 3, 3, 2],
    [96, 20, 3, 3, 2],
    [32, 150, 8, 16, 7],
    [33, 150, 8, 16, 7],
    [40, 150, 8, 16, 7],
    [96, 150, 8, 16, 7],
    // the image is just long enough, or short
    [96, 64, 8, 8, 8],
    [96, 63, 8, 8, 8],
    [96, 0, 8, 8, 8],
    [96, 30, 5, 5, 6],
    [96, 29, 5, 5, 6],
    [96, 1, 1, 1, 1],
    [96, 0, 1, 1, 1],
];

// Row calls: the same, and the row.
pub static ROW_CALLS: [[usize; 6]; 44] = [
    // a side is 0; also where the other is too large, where it has three blocks, where the row is short, and where it is outside
    [96, 16, 0, 0, 4, 0],
    [96, 16, 0, 0, 65537, 0],
    [96, 16, 0, 0, 12, 0],
    [96, 16, 4, 4, 0, 0],
    [96, 3, 4, 4, 0, 0],
    [96, 16, 0, 0, 4, 4],
    // a side is above 65,536; a side of 65,536 is not, but there the data is short
    [96, 16, 65537, 65537, 4, 0],
    [96, 16, 4, 4, 65537, 0],
    [96, 16, MOST, MOST, MOST, MOST],
    [96, 16, 65536, 65536, 4, 0],
    [96, 16, 4, 4, 65536, 0],
    // four blocks need 32 bytes; also where the row is short, and where it is outside
    [32, 20, 8, 16, 8, 7],
    [31, 20, 8, 16, 8, 7],
    [16, 20, 8, 16, 8, 7],
    [0, 20, 8, 16, 8, 7],
    [31, 7, 8, 16, 8, 7],
    [31, 20, 8, 16, 8, 8],
    // data past the need of four blocks
    [32, 20, 8, 16, 7, 6],
    [33, 20, 8, 16, 7, 6],
    [96, 20, 8, 16, 7, 6],
    // the row is just long enough, or short; also where it is outside
    [96, 8, 8, 8, 8, 7],
    [96, 7, 8, 8, 8, 7],
    [96, 0, 8, 8, 8, 7],
    [96, 7, 8, 8, 8, 8],
    // three blocks across or down are no power of two; also where the data is short, where the row is short, and where it is outside
    [96, 30, 12, 24, 8, 7],
    [96, 30, 8, 8, 12, 0],
    [47, 30, 12, 24, 8, 7],
    [96, 11, 12, 24, 8, 7],
    [96, 30, 12, 24, 8, 8],
    // the row is outside; also within a block that goes on past the picture
    [96, 20, 16, 16, 8, 7],
    [96, 20, 16, 16, 8, 8],
    [96, 20, 16, 16, 8, MOST],
    [96, 20, 6, 6, 5, 4],
    [96, 20, 6, 6, 5, 5],
    // rows of a picture with a side of 65,536, with all the bytes that it needs
    [131072, 3, 1, 1, 65536, 0],
    [131072, 3, 1, 1, 65536, 65535],
    [131072, 3, 1, 1, 65536, 65536],
    [131071, 3, 1, 1, 65536, 0],
    [131072, 3, 65536, 65536, 1, 0],
    // rows where a side is too large, and nothing else; then with short data, with a short row, with blocks that are no power of two, and
    // outside
    [262144, 3, 1, 1, 131072, 0],
    [262143, 3, 1, 1, 131072, 0],
    [262144, 0, 1, 1, 131072, 0],
    [131080, 3, 1, 1, 65537, 0],
    [262144, 3, 1, 1, 131072, 131072],
];

// Picture calls with all the bytes that they need.
pub static TALL_PICTURE_CALLS: [[usize; 5]; 5] = [
    // the image is short: a side of 65,536 is not too large, the others are
    [131072, 16, 1, 1, 65536],
    [131072, 16, 65536, 65536, 1],
    [131080, 16, 1, 1, 65537],
    [131080, 16, 65537, 65537, 1],
    [262144, 16, 1, 1, 131072],
];
