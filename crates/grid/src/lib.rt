// The grid of blocks: how many there are, where each one's word stands, and which are its neighbours.
#![tactic(auto)]

mod table;

ghost use Rattle.std.specs.Prelude.{◌≡◌, ◌<◌, ◌≤◌, length, min};
ghost use Rattle.grid.specs.Grid.{block_width, blocks, log2, Power, is_power, Placed, address, beside};
ghost use Rattle.grid.specs.Words.{word_bytes, Stands};

pub use table::{morton_index_by_table, spread};

// The blocks that hold a picture's words: how many across and down, and the depth that they are read at.
#[derive(Clone, Copy)]
pub struct Grid {
    pub across: usize,
    pub down: usize,
    pub is2bpp: bool,
}

impl Grid {
    // The smaller of its sides.
    pub fn smaller(self) -> usize
        ensures { result ≡ min self.across self.down }
    {
        self.across.min(self.down)
    }
}

// The words of a grid, in a run of bytes.
#[derive(Clone, Copy)]
pub struct GridWords<'a> {
    pub bytes: &'a [u8],
    pub grid: Grid,
    ghost stands: { Stands grid (length bytes.now) },
}

// The texels across a block.
pub fn block_width(is2bpp: bool) -> usize
    ensures { result ≡ block_width is2bpp }
{
    if is2bpp { 8 } else { 4 }
}

// The blocks across a picture.
pub fn num_blocks_x(width: usize, is2bpp: bool) -> usize
    ensures { result ≡ blocks (block_width is2bpp) width }
{
    width.div_ceil(block_width(is2bpp))
}

// The blocks down a picture.
pub fn num_blocks_y(height: usize) -> usize
    ensures { result ≡ blocks 4 height }
{
    height.div_ceil(4)
}

// The bytes of a grid's words.
pub fn need_of(g: Grid) -> usize
    requires { (g.across ≤ 65536) × (g.down ≤ 65536) }
    ensures { result ≡ word_bytes g }
{
    8 * (g.across * g.down)
}

// Whether n is a power of two.
pub fn is_power_of_two(n: usize) -> bool
    ensures { result ≡ is_power n }
{
    n.is_power_of_two()
}

// The address of block (x, y), where min_dim is the smaller side of the grid: quarter the square, then quarter the quarter. The blocks of
// a quarter follow one another, and the quarters come in this order (docs/QUARTERING.md draws it):
//
//     0 left upper | 2 right upper
//     1 left lower | 3 right lower
//
// Two by two blocks are one place of a grid of half the sides, at (x / 2, y / 2), whose address says how many fours of blocks come before. The
// low bits say which quarter of that place the block is: x's the left or the right two, y's the upper or the lower. At side 1 a whole square
// is one place: what is left of the longer side says which square of the line it is, and of the other side 0 is left.
//
// In a grid of 4 × 4 blocks (3, 2) is found in two steps:
//
//     at side 2, (1, 1) is 4 * 0 + 2 * 1 + 1 = 3: the right lower quarter
//     at side 4, (3, 2) is 4 * 3 + 2 * 1 + 0 = 14: in that quarter the right upper block
pub fn morton_index(x: usize, y: usize, min_dim: usize) -> usize
    requires { Placed min_dim x y }
    ensures { result ≡ address (log2 min_dim) x y }
{
    if min_dim == 1 {
        x + y
    } else {
        let quarter = 2 * (x % 2) + y % 2;
        4 * morton_index(x / 2, y / 2, min_dim / 2) + quarter
    }
}

// The block before block c of a side, round the torus: the side divides 2^64, so the wrap does no harm.
pub fn previous_block(c: usize, side: usize) -> usize
    requires { Power side }
    ensures { result ≡ beside side c 0 }
{
    c.wrapping_sub(1) % side
}

// The block after block c of a side, round the torus. The two names say more than one with a step of 1 or -1 would.
pub fn next_block(c: usize, side: usize) -> usize
    requires { Power side }
    ensures { result ≡ beside side c 2 }
{
    c.wrapping_add(1) % side
}
