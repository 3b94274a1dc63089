// A picture's description: how it is made, the grid that holds its words, and the sheet that its texels go to.
ghost use Rattle.std.specs.Prelude.{◌≡◌};
ghost use Rattle.pvrtc.specs.Picture.{picture, in_order, side_in, grid_of, sheet_of};

use crate::{GridMode, Picture};
use grid::Grid;
use paint::Sheet;
use pixel::ChannelOrder;

// The description of a picture as the Rust takes it, with the mode and the order.
pub fn picture_of(
    width: usize,
    height: usize,
    is2bpp: bool,
    mode: GridMode,
    order: ChannelOrder,
) -> Picture
    ensures { result ≡ picture width height is2bpp mode order }
{
    Picture {
        width,
        height,
        is2bpp,
        mode,
        order,
    }
}

// A picture in another order.
pub fn in_order(p: Picture, order: ChannelOrder) -> Picture
    ensures { result ≡ in_order order p }
{
    Picture { order, ..p }
}

// The blocks along a side of a grid, where `cover` blocks cover the picture.
fn side_in(mode: GridMode, cover: usize) -> usize
    ensures { result ≡ side_in mode cover }
{
    match mode {
        GridMode::Rust => cover,
        GridMode::Stored => cover.max(2),
    }
}

// The grid that holds a picture's words.
pub fn grid_of(p: Picture) -> Grid
    ensures { result ≡ grid_of p }
{
    Grid {
        across: side_in(p.mode, grid::num_blocks_x(p.width, p.is2bpp)),
        down: side_in(p.mode, grid::num_blocks_y(p.height)),
        is2bpp: p.is2bpp,
    }
}

// The sheet that a picture's texels go to.
pub fn sheet_of(p: Picture) -> Sheet
    ensures { result ≡ sheet_of p }
{
    Sheet {
        start: 0,
        stride: p.width,
        width: p.width,
        height: p.height,
    }
}
