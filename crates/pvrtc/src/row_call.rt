// The row call.
ghost use Rattle.std.specs.Prelude.{◌≡◌, ◌%◌, get_or};
ghost use Rattle.grid.specs.Grid.{block_width};
ghost use Rattle.pvrtc.specs.Calls.{TexelRead, RowDecoded};
ghost use Rattle.pvrtc.specs.Picture.{picture_texel};

use crate::check::check;
use crate::layout::grid_of;
use crate::{Call, Picture, Refusal};
use grid::GridWords;

// What the texel call answers, where the texels of its row in its block are known.
fn known_texel(
    texels: &[u32; 8],
    data: &[u8],
    p: Picture,
    x: usize,
    y: usize,
) -> Result<u32, Refusal>
    requires { get_or texels.now (x % block_width p.is2bpp) 0 ≡ picture_texel p «data».now x y }
    ensures { TexelRead p «data».now x y result }
{
    check(p, Call::Texel { x, y }, data.len())?;
    Ok(texels[x % grid::block_width(p.is2bpp)])
}

// Row y of a picture into lent words. The nine words about a block become those about the next one.
pub fn decode_row(data: &[u8], p: Picture, y: usize, row: &mut [u32]) -> Result<(), Refusal>
    ensures { RowDecoded p «data».now y row.old row.new result }
{
    check(p, Call::Row { y, room: row.len() }, data.len())?;
    let g = grid_of(p);
    let w = GridWords {
        bytes: data,
        grid: g,
    };
    let width = grid::block_width(g.is2bpp);
    let mut nine = texel::first_words(w, g.across - 1, y / 4, y % 4);
    let mut texels = [0u32; 8];
    for (x, word) in row[..p.width].iter_mut().enumerate() {
        if x % width == 0 {
            let next = texel::next_words(w, nine, x / width, y / 4, y % 4);
            texel::texels_in(next, g.is2bpp, 0, y % 4, width, p.order, &mut texels);
            nine = next;
        }
        let Ok(found) = known_texel(&texels, data, p, x, y) else {
            // By the checks above no texel of the row is refused.
            return Err(Refusal::Outside);
        };
        *word = found;
    }
    Ok(())
}
