// A row of texels, block by block: the nine words about a block become those about the next one.
ghost use Rattle.std.specs.Prelude.{◌≡◌, ◌+◌, ◌≤◌, ◌<◌, length};
ghost use Rattle.grid.specs.Grid.{block_width};
ghost use Rattle.grid.specs.Words.{InGrid};
ghost use Rattle.texel.specs.Inner.{Read};
ghost use Rattle.texel.specs.Summed.{with_texels};
ghost use Rattle.texel.specs.Needed.{row_words, slid};

use crate::summing::{shares_down, sum_down};
use crate::words::{needed_words, word_if};
use crate::{NineWords, ShareRow, texel_by};
use grid::GridWords;
use pixel::ChannelOrder;
use word::PVRTCTexelInfo;

// `count` texels of the middle block of nine, from the place (px, py) on.
pub fn texels_in(
    nine: [PVRTCTexelInfo; 9],
    is2bpp: bool,
    px: usize,
    py: usize,
    count: usize,
    order: ChannelOrder,
    texels: &mut [u32],
)
    requires { (px + count ≤ block_width is2bpp) × (py < 4) × Read is2bpp nine × (count ≤ length texels.old) }
    ensures { texels.new ≡ with_texels order is2bpp nine px py count texels.old }
{
    let nine = NineWords {
        words: &nine,
        is2bpp,
    };
    let window = sum_down(nine.words, shares_down(py));
    for (i, texel) in texels[..count].iter_mut().enumerate() {
        *texel = texel_by(nine, window, px + i, py, order);
    }
}

// The nine words about block (bx, by), as far as row py needs them.
pub fn first_words(w: GridWords<'_>, bx: usize, by: usize, py: usize) -> [PVRTCTexelInfo; 9]
    requires { InGrid w.grid bx by × (py < 4) }
    ensures { result ≡ row_words w.entry.grid w.entry.bytes.now bx by py }
{
    needed_words(w, bx, by, ShareRow { of: [1, 1, 1] }, shares_down(py))
}

// From the nine words about the block before (bx, by), those about it.
pub fn next_words(
    w: GridWords<'_>,
    nine: [PVRTCTexelInfo; 9],
    bx: usize,
    by: usize,
    py: usize,
) -> [PVRTCTexelInfo; 9]
    requires { InGrid w.grid bx by × (py < 4) }
    ensures { result ≡ slid w.entry.grid w.entry.bytes.now bx by py nine }
{
    let down = shares_down(py);
    let above = word_if(w, bx, by, 2, down.of[0]);
    let beside = word_if(w, bx, by, 5, down.of[1]);
    let below = word_if(w, bx, by, 8, down.of[2]);
    [
        nine[1], nine[2], above, nine[4], nine[5], beside, nine[7], nine[8], below,
    ]
}
