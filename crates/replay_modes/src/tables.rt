// The cases.

// The red corner: the data of a plate of 4 by 4 texels at 4bpp, four bytes to a number. All weights are 0; colour A is red in the first word, and black
// in the other three, and B is black.
pub const RED_CORNER: [u32; 8] = [0, 0x8000fc00, 0, 0x80008000, 0, 0x80008000, 0, 0x80008000];

// One colour: the data of a plate of one block, four bytes to a number. All weights are 0; colour A is translucent, and each of its channels differs
// from the others: blue is 33, green 66, red 140 and alpha 238.
pub const ONE_COLOUR: [u32; 2] = [0, 0x80007842];

// Calls for the last row and texel of a picture: how many bytes, the width and the height.
pub static NEEDS: [(usize, usize, usize); 51] = [
    // one block: 8 bytes, or 32
    (33, 4, 4),
    (32, 4, 4),
    (31, 4, 4),
    (8, 4, 4),
    (7, 4, 4),
    (0, 4, 4),
    (32, 1, 1),
    (31, 1, 1),
    (8, 1, 1),
    (7, 1, 1),
    // two blocks across at 4bpp, and one at 2bpp
    (32, 8, 4),
    (31, 8, 4),
    (16, 8, 4),
    (15, 8, 4),
    (8, 8, 4),
    (7, 8, 4),
    // two blocks down
    (32, 4, 8),
    (31, 4, 8),
    (16, 4, 8),
    (15, 4, 8),
    // two each way in both modes, at 4bpp
    (32, 8, 8),
    (31, 8, 8),
    // long and low: 2,048 or 4,096 bytes at 4bpp, 1,024 or 2,048 at 2bpp
    (4096, 1024, 4),
    (4095, 1024, 4),
    (2048, 1024, 4),
    (2047, 1024, 4),
    (1024, 1024, 4),
    (1023, 1024, 4),
    // high and narrow: 2,048 or 4,096 bytes
    (4096, 4, 1024),
    (4095, 4, 1024),
    (2048, 4, 1024),
    (2047, 4, 1024),
    // a side of 65,536, with all its bytes; the lent words are too few for the picture, and in the last two for a row
    (262144, 1, 65536),
    (262143, 1, 65536),
    (131072, 1, 65536),
    (131071, 1, 65536),
    (262144, 65536, 1),
    (262143, 65536, 1),
    // a side is 0, or above 65,536
    (96, 0, 4),
    (96, 4, 0),
    (0, 0, 0),
    (96, 0, 65537),
    (96, 65537, 4),
    (96, 4, 65537),
    // three blocks, which are no power of two: across at 4bpp, across at 2bpp, and down
    (48, 9, 4),
    (47, 9, 4),
    (23, 9, 4),
    (48, 17, 4),
    (47, 17, 4),
    (48, 4, 9),
    (47, 4, 9),
];

// Other calls, each with how many bytes, how many words, the width, the height, and the column and the row that are asked for. A row is an array, of
// which `Call` is made: a struct's would stand on eight lines.
pub const OTHERS: [[usize; 6]; 10] = [
    // the image is just long enough, or short; also where the data is short, and where there are three blocks
    [32, 16, 4, 4, 0, 0],
    [32, 15, 4, 4, 0, 0],
    [31, 15, 4, 4, 0, 0],
    [48, 3, 9, 4, 0, 0],
    // the texel or the row lies outside, where the stored grid goes on and past it; also where the data is short, and where there are three blocks
    [32, 25, 4, 4, 4, 3],
    [32, 25, 4, 4, 3, 4],
    [32, 25, 4, 4, 0xffffffffffffffff, 0xffffffffffffffff],
    [31, 25, 4, 4, 4, 4],
    [48, 100, 9, 4, 9, 4],
    // the largest sides
    [96, 16, 0xffffffffffffffff, 0xffffffffffffffff, 0, 0],
];
