// One texel of a picture, from the nine words about its block.
#![tactic(auto)]

mod rows;
mod summing;
mod weights;
mod words;

ghost use Rattle.std.specs.Prelude.{◌≡◌, ◌+◌, ◌*◌, ◌/◌, ◌^◌, ◌≤◌, ◌<◌};
ghost use Rattle.grid.specs.Grid.{half};
ghost use Rattle.pixel.specs.Pixel.{packed, EightBits};
ghost use Rattle.texel.specs.Texel.{blended, blend, texel_in};
ghost use Rattle.texel.specs.Inner.{nine_of, to_bytes, pixel, Place, Read, Low};
ghost use Rattle.texel.specs.Summed.{texel_by, FewShares, LowWindow};

use pixel::ChannelOrder;
pub use rows::{first_words, next_words, texels_in};
use summing::{shares_across, sum_across};
use weights::{punched, weight_at};
use word::PVRTCTexelInfo;
pub use words::{nine_words, texel_at};

// Nine words about a block that were read, in row order, at a depth.
#[derive(Clone, Copy)]
pub struct NineWords<'a> {
    pub words: &'a [PVRTCTexelInfo; 9],
    pub is2bpp: bool,
    ghost read: { Read is2bpp words.now },
}

// The shares of the previous, the own and the next block: none is above 8.
#[derive(Clone, Copy)]
pub struct ShareRow {
    pub of: [u32; 3],
    ghost few: { FewShares of },
}

// The channels of a colour: summed over nine blocks, or brought to 8 bits.
#[derive(Clone, Copy)]
pub struct PVRTCTexelColorInt {
    pub r: u32,
    pub g: u32,
    pub b: u32,
    pub a: u32,
}

// The sums of a colour down three columns of words: the previous, the own and the next block's.
#[derive(Clone, Copy)]
pub struct Columns {
    pub previous: PVRTCTexelColorInt,
    pub own: PVRTCTexelColorInt,
    pub next: PVRTCTexelColorInt,
}

// The columns of colours A and B.
#[derive(Clone, Copy)]
pub struct Window {
    pub a: Columns,
    pub b: Columns,
}

// A sum of channels of so many bits as 8 bits: shifted down, and what is above that many bits once more.
fn to_byte(sum: u32, shift: u32, bits: u32) -> u32
    requires { (shift ≤ 2) × (bits ≤ 5) × (sum ≤ 992) }
    ensures { result ≡ sum / 2 ^ shift + sum / 2 ^ (shift + bits) }
{
    (sum >> shift) + (sum >> (shift + bits))
}

// A colour's sums as 8 bits.
fn scale(s: PVRTCTexelColorInt, is2bpp: bool) -> PVRTCTexelColorInt
    requires { Low (8 * half is2bpp) s }
    ensures { (result ≡ to_bytes (half is2bpp) s) × EightBits (pixel result) }
{
    let shift = u32::from(is2bpp);
    PVRTCTexelColorInt {
        r: to_byte(s.r, shift + 1, 5),
        g: to_byte(s.g, shift + 1, 5),
        b: to_byte(s.b, shift + 1, 5),
        a: to_byte(s.a, shift, 4),
    }
}

// One channel of the blend of A and B.
fn interpolate_color(c1: u32, c2: u32, w: u32) -> u8
    requires { (c1 < 256) × (c2 < 256) × (w ≤ 8) }
    ensures { result ≡ blended c1 c2 w }
{
    ((c1 * (8 - w) + c2 * w) / 8) as u8
}

// The blend of A and B at the weight w, as a word.
fn mix(
    a: PVRTCTexelColorInt,
    b: PVRTCTexelColorInt,
    w: u32,
    is_punched: bool,
    order: ChannelOrder,
) -> u32
    requires { EightBits (pixel a) × EightBits (pixel b) × (w ≤ 8) }
    ensures { result ≡ packed order (blend (pixel a) (pixel b) w is_punched) }
{
    let red = interpolate_color(a.r, b.r, w);
    let green = interpolate_color(a.g, b.g, w);
    let blue = interpolate_color(a.b, b.b, w);
    let alpha = interpolate_color(a.a, b.a, w);
    if is_punched {
        pixel::color(red, green, blue, 0, order)
    } else {
        pixel::color(red, green, blue, alpha, order)
    }
}

// The texel at the place (px, py) of the middle block of nine, from its window.
fn texel_by(nine: NineWords<'_>, window: Window, px: usize, py: usize, order: ChannelOrder) -> u32
    requires { Place nine.is2bpp px py × LowWindow window }
    ensures { result ≡ packed order (texel_by (half nine.entry.is2bpp) (nine_of nine.entry.words.now) window px py) }
{
    let row = shares_across(nine.is2bpp, px);
    let a = scale(sum_across(window.a, row), nine.is2bpp);
    let b = scale(sum_across(window.b, row), nine.is2bpp);
    let w = weight_at(nine, px, py);
    let is_punched = punched(nine.words[4].punch_through_flag, nine.is2bpp, px, py);
    mix(a, b, w, is_punched, order)
}

// The texel at the place (px, py) of the middle block of nine.
pub fn texel_in(
    nine: [PVRTCTexelInfo; 9],
    is2bpp: bool,
    px: usize,
    py: usize,
    order: ChannelOrder,
) -> u32
    requires { Place is2bpp px py × Read is2bpp nine }
    ensures { result ≡ packed order (texel_in (half is2bpp) (nine_of nine) px py) }
{
    let mut texels = [0; 8];
    texels_in(nine, is2bpp, px, py, 1, order, &mut texels);
    texels[0]
}
