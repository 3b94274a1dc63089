// The block call, row of blocks by row of blocks, under the Rust's names and over a picture's description.
ghost use Rattle.std.specs.Prelude.{true, false};
ghost use Rattle.pvrtc.specs.Calls.{BlockDecoded};
ghost use Rattle.pvrtc.specs.Picture.{picture};

use crate::check::check;
use crate::layout::{grid_of, picture_of, sheet_of};
use crate::{Call, GridMode, Picture, Refusal};
use pixel::ChannelOrder;

// All texels of a picture into lent words: the rows of blocks that cover its sheet, each in lanes.
pub fn decode_picture(data: &[u8], p: Picture, image: &mut [u32]) -> Result<(), Refusal>
    ensures { BlockDecoded p «data».now image.old image.new result }
{
    check(p, Call::Block { room: image.len() }, data.len())?;
    let g = grid_of(p);
    let s = sheet_of(p);
    for by in 0..grid::num_blocks_y(s.height) {
        lanes::decode_block_row(data, g, by, p.order, paint::rows_from(s, by * 4, 4), image);
    }
    Ok(())
}

// The same by the Rust's names and parameters, with the mode and the order.
pub fn decode_pvrtc(
    data: &[u8],
    width: usize,
    height: usize,
    image: &mut [u32],
    is2bpp: bool,
    mode: GridMode,
    order: ChannelOrder,
) -> Result<(), Refusal>
    ensures { BlockDecoded (picture width height is2bpp mode order) «data».now image.old image.new result }
{
    decode_picture(data, picture_of(width, height, is2bpp, mode, order), image)
}

// The depth in the name: the Rust has these two, and docs/PROMISES.md says what either promises.
pub fn decode_pvrtc_2bpp(
    data: &[u8],
    width: usize,
    height: usize,
    image: &mut [u32],
    mode: GridMode,
    order: ChannelOrder,
) -> Result<(), Refusal>
    ensures { BlockDecoded (picture width height true mode order) «data».now image.old image.new result }
{
    decode_pvrtc(data, width, height, image, true, mode, order)
}

pub fn decode_pvrtc_4bpp(
    data: &[u8],
    width: usize,
    height: usize,
    image: &mut [u32],
    mode: GridMode,
    order: ChannelOrder,
) -> Result<(), Refusal>
    ensures { BlockDecoded (picture width height false mode order) «data».now image.old image.new result }
{
    decode_pvrtc(data, width, height, image, false, mode, order)
}
