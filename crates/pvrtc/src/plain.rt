// The plain form of the block call, in the Rust's own shape: block by block, each from nine parsed words into a buffer that is laid on the
// sheet. It promises what the fast form promises.
ghost use Rattle.std.specs.Prelude.{true, false, ◌≡◌, ◌*◌, ◌+◌, ◌≤◌, length};
ghost use Rattle.grid.specs.Grid.{block_width};
ghost use Rattle.grid.specs.Words.{InGrid};
ghost use Rattle.lanes.specs.BlockRow.{Ready, with_block_row};
ghost use Rattle.paint.specs.Sheet.{on_sheet, Fits};
ghost use Rattle.texel.specs.Inner.{Read};
ghost use Rattle.texel.specs.Texel.{grid_texel};
ghost use Rattle.pvrtc.specs.Calls.{BlockDecoded};
ghost use Rattle.pvrtc.specs.Inner.{block_words};

use crate::check::check;
use crate::layout::{grid_of, sheet_of};
use crate::{Call, Picture, Refusal};
use grid::{Grid, GridWords};
use paint::Sheet;
use pixel::ChannelOrder;
use word::PVRTCTexelInfo;

// The texels of the middle block of nine words, 16 at 4bpp and 32 at 2bpp; zeros follow.
fn applicate_color(nine: [PVRTCTexelInfo; 9], is2bpp: bool, order: ChannelOrder) -> [u32; 32]
    requires { Read is2bpp nine }
    ensures { result ≡ block_words order is2bpp nine }
{
    let width = grid::block_width(is2bpp);
    let mut buffer = [0u32; 32];
    for (i, texel) in buffer[..4 * width].iter_mut().enumerate() {
        *texel = texel::texel_in(nine, is2bpp, i % width, i / width, order);
    }
    buffer
}

// Block (bx, by) of a grid, laid on its part of a sheet.
fn decode_block(
    w: GridWords<'_>,
    bx: usize,
    by: usize,
    order: ChannelOrder,
    part: Sheet,
    image: &mut [u32],
)
    requires in_grid { InGrid w.grid bx by }
    requires fits { Fits part (length image.old) × (part.width ≤ block_width w.grid.is2bpp) × (part.height ≤ 4) }
    ensures { image.new
        ≡ on_sheet part (λ x y. grid_texel order w.entry.grid w.entry.bytes.now (bx * block_width w.entry.grid.is2bpp + x) (by * 4 + y)) image.old }
{
    let is2bpp = w.grid.is2bpp;
    let nine = texel::nine_words(w, bx, by);
    let buffer = applicate_color(nine, is2bpp, order);
    paint::copy_block_buffer(&buffer, grid::block_width(is2bpp), part, image);
}

// Row `by` of a grid's blocks, laid on its sheet: as many blocks as cover it.
fn decode_block_row(
    data: &[u8],
    g: Grid,
    by: usize,
    order: ChannelOrder,
    row: Sheet,
    image: &mut [u32],
)
    requires { Ready g by row (length «data».now) (length image.old) }
    ensures { image.new ≡ with_block_row order g by row «data».now image.old }
{
    let w = GridWords {
        bytes: data,
        grid: g,
    };
    let width = grid::block_width(g.is2bpp);
    for bx in 0..grid::num_blocks_x(row.width, g.is2bpp) {
        decode_block(
            w,
            bx,
            by,
            order,
            paint::columns_from(row, bx * width, width),
            image,
        );
    }
}

// All texels of a picture into lent words. The loop stands here again on purpose: this is the form to hold the fast one against (docs/DECISIONS.md).
pub fn decode_pvrtc_plain(data: &[u8], p: Picture, image: &mut [u32]) -> Result<(), Refusal>
    ensures { BlockDecoded p «data».now image.old image.new result }
{
    check(p, Call::Block { room: image.len() }, data.len())?;
    let g = grid_of(p);
    let s = sheet_of(p);
    for by in 0..grid::num_blocks_y(s.height) {
        decode_block_row(data, g, by, p.order, paint::rows_from(s, by * 4, 4), image);
    }
    Ok(())
}
