// The nine words about a block, read from the data.
ghost use Rattle.std.specs.Prelude.{◌≡◌, ◌*◌, ◌/◌, ◌%◌, ◌<◌, ◌≤◌, length, drop};
ghost use Rattle.grid.specs.Grid.{block_width, Power, beside};
ghost use Rattle.grid.specs.Words.{InGrid};
ghost use Rattle.word.specs.Word.{word_of};
ghost use Rattle.texel.specs.Texel.{grid_texel};
ghost use Rattle.texel.specs.Inner.{nine_about};
ghost use Rattle.texel.specs.Needed.{word_about, word_if, needed_about};

use crate::summing::{shares_across, shares_down};
use crate::{ShareRow, texel_in};
use grid::{Grid, GridWords};
use pixel::ChannelOrder;
use word::PVRTCTexelInfo;

// The block k of (previous, own, next) = (0, 1, 2) beside block c, round the torus.
fn beside(c: usize, side: usize, k: usize) -> usize
    requires { Power side × (c < side) × (k < 3) }
    ensures { (result ≡ Rattle.grid.specs.Grid.beside side c k) × (result < side) }
{
    match k {
        0 => grid::previous_block(c, side),
        1 => c,
        _ => grid::next_block(c, side),
    }
}

// Block k of the nine about block (bx, by), in row order.
fn neighbour(g: Grid, bx: usize, by: usize, k: usize) -> (usize, usize)
    requires { Power g.across × Power g.down × InGrid g bx by × (k < 9) }
    ensures { (result.0 ≡ beside g.across bx (k % 3)) × (result.1 ≡ beside g.down by (k / 3)) }
{
    (beside(bx, g.across, k % 3), beside(by, g.down, k / 3))
}

// The word at the address z.
fn word_at(w: GridWords<'_>, z: usize) -> PVRTCTexelInfo
    requires { 8 * z ≤ length w.bytes.now }
    ensures { result ≡ word_of w.entry.grid.is2bpp (drop (8 * z) w.entry.bytes.now) }
{
    word::read_word(&w.bytes[8 * z..], w.grid.is2bpp)
}

// The nine words about block (bx, by), in row order: their addresses by quartering. bx and by are counted by the callers' loops, so a struct of them
// would be made anew at each turn.
pub fn nine_words(w: GridWords<'_>, bx: usize, by: usize) -> [PVRTCTexelInfo; 9]
    requires { InGrid w.grid bx by }
    ensures { result ≡ nine_about w.entry.grid w.entry.bytes.now bx by }
{
    let mut nine = [word::unread_info(); 9];
    for (k, word) in nine.iter_mut().enumerate() {
        let (x, y) = neighbour(w.grid, bx, by, k);
        *word = word_at(w, grid::morton_index(x, y, w.grid.smaller()));
    }
    nine
}

// Word k of the nine about block (bx, by), if it has a share, else unread: its address through the table of spread bytes.
pub fn word_if(w: GridWords<'_>, bx: usize, by: usize, k: usize, share: u32) -> PVRTCTexelInfo
    requires { InGrid w.grid bx by × (k < 9) }
    ensures { result ≡ word_if share (word_about w.entry.grid w.entry.bytes.now bx by k) }
{
    if share == 0 {
        return word::unread_info();
    }
    let (x, y) = neighbour(w.grid, bx, by, k);
    word_at(w, grid::morton_index_by_table(x, y, w.grid.smaller()))
}

// The nine words about block (bx, by) that have a share, in row order, and the others unread.
pub fn needed_words(
    w: GridWords<'_>,
    bx: usize,
    by: usize,
    across: ShareRow,
    down: ShareRow,
) -> [PVRTCTexelInfo; 9]
    requires { InGrid w.grid bx by }
    ensures { result ≡ needed_about w.entry.grid w.entry.bytes.now bx by across.of down.of }
{
    let mut nine = [word::unread_info(); 9];
    for (k, word) in nine.iter_mut().enumerate() {
        *word = word_if(w, bx, by, k, across.of[k % 3] * down.of[k / 3]);
    }
    nine
}

// The texel (x, y) of a grid of blocks.
pub fn texel_at(w: GridWords<'_>, x: usize, y: usize, order: ChannelOrder) -> u32
    requires { InGrid w.grid (x / block_width w.grid.is2bpp) (y / 4) }
    ensures { result ≡ grid_texel order w.entry.grid w.entry.bytes.now x y }
{
    let is2bpp = w.grid.is2bpp;
    let width = grid::block_width(is2bpp);
    let (px, py) = (x % width, y % 4);
    let nine = needed_words(
        w,
        x / width,
        y / 4,
        shares_across(is2bpp, px),
        shares_down(py),
    );
    texel_in(nine, is2bpp, px, py, order)
}
