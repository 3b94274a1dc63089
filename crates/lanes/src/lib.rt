// One row of blocks, decoded fast: four channels as lanes of one number, and a window of three columns of words that slides along the
// row, each parsed once. The order of channels is that of the lanes: past the reading of a colour nothing asks for it.
#![tactic(auto)]

mod coding;
mod colors;
mod filling;
mod modulation;
mod places;
mod row;

ghost use Rattle.std.specs.Prelude.{◌≡◌, length};
ghost use Rattle.lanes.specs.BlockRow.{Ready, with_block_row};

use grid::Grid;
use paint::Sheet;
use pixel::ChannelOrder;

// The two colours of a word, as lanes.
#[derive(Clone, Copy)]
pub struct ColorLanes {
    pub a: u64,
    pub b: u64,
}

// Three words of a column, the one above a block, its own and the one below, summed for rows 0 to 3 of the block: colour A and colour B. That its
// numbers are small (`SmallColumn`) is no field of it: `column_of` makes columns in specs/, which may not name the lemma. So it is with `Weights`.
#[derive(Clone, Copy)]
pub struct Column {
    pub a: [u64; 4],
    pub b: [u64; 4],
}

// One row of three columns, the one before a block, its own and the next one, in one colour.
#[derive(Clone, Copy)]
pub struct Sums {
    pub left: u64,
    pub own: u64,
    pub right: u64,
}

// The smaller side of the grid, and what the rows of blocks above, own and below add to an address.
#[derive(Clone, Copy)]
pub struct RowAddresses {
    pub smaller: usize,
    pub above: usize,
    pub own: usize,
    pub below: usize,
}

// The addresses of a column's three words: above a block, its own and below it.
#[derive(Clone, Copy)]
pub struct Addresses {
    pub above: usize,
    pub own: usize,
    pub below: usize,
}

// What a word's modulation says of a texel: the weight of colour B, and what is kept of the blend.
#[derive(Clone, Copy)]
pub struct Meaning {
    pub weight: u64,
    pub keep: u64,
}

// A column: where its words stand, their colours summed, and what the modulation of its own word says.
#[derive(Clone, Copy)]
pub struct Block<M> {
    pub at: Addresses,
    pub column: Column,
    pub said: M,
}

// A word's codes at 4bpp, and whether its mode is 1.
#[derive(Clone, Copy)]
pub struct Codes {
    pub modulation: u64,
    pub punches: bool,
}

// Four rows of eight weights, each weight a byte.
#[derive(Clone, Copy)]
pub struct Weights {
    pub rows: [u64; 4],
}

// How a block is filled: the rows of weights over its upper and lower edge, whether its mode is 1, and how often the weights beside a texel
// count, and those above and below it.
#[derive(Clone, Copy)]
pub struct FillRule {
    pub above: u64,
    pub below: u64,
    pub mode: bool,
    pub beside: u64,
    pub upright: u64,
}

// Row `by` of a grid's blocks, at either depth, laid on its sheet.
pub fn decode_block_row(
    data: &[u8],
    g: Grid,
    by: usize,
    order: ChannelOrder,
    row: Sheet,
    image: &mut [u32],
)
    requires { Ready g by row (length «data».now) (length image.old) }
    ensures { image.new ≡ with_block_row order g by row «data».now image.old }
{
    if g.is2bpp {
        row::decode_row::<Weights>(data, g, by, order, row, image);
    } else {
        row::decode_row::<Codes>(data, g, by, order, row, image);
    }
}
