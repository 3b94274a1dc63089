// The texel call.
ghost use Rattle.pvrtc.specs.Calls.{TexelRead};

use crate::check::check;
use crate::layout::grid_of;
use crate::{Call, Picture, Refusal};
use grid::GridWords;

// Texel (x, y) of a picture.
pub fn decode_texel(data: &[u8], p: Picture, x: usize, y: usize) -> Result<u32, Refusal>
    ensures { TexelRead p «data».now x y result }
{
    check(p, Call::Texel { x, y }, data.len())?;
    let w = GridWords {
        bytes: data,
        grid: grid_of(p),
    };
    Ok(texel::texel_at(w, x, y, p.order))
}
