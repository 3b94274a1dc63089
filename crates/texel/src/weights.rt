// The weight of a texel, filled from its neighbours where its block holds none for it.
ghost use Rattle.std.specs.Prelude.{◌≡◌, ◌+◌, ◌*◌, ◌/◌, ◌%◌, ◌≤◌, ◌<◌};
ghost use Rattle.facts.specs.Bits.{is_set};
ghost use Rattle.grid.specs.Grid.{half, block_width};
ghost use Rattle.texel.specs.Texel as spec;
ghost use Rattle.texel.specs.Texel.{filled, rule_at};
ghost use Rattle.texel.specs.Inner.{nine_of, Place, InNine};

use crate::NineWords;
use word::{Fill, PVRTCTexelInfo};

// Which of a row of blocks has the place x across, and which of its texels across it is. (Both divisors are constants: a division by
// the width as a variable is slow.)
fn across(is2bpp: bool, x: usize) -> (usize, usize)
    ensures { (result.0 ≡ x / block_width is2bpp) × (result.1 ≡ x % block_width is2bpp) }
{
    if is2bpp {
        (x / 8, x % 8)
    } else {
        (x / 4, x % 4)
    }
}

// The weight stored at the place (x, y) of the nine blocks, counted from the corner of the first.
fn near(nine: NineWords<'_>, x: usize, y: usize) -> u32
    requires { InNine nine.is2bpp x y }
    ensures { (result ≡ spec.near (half nine.entry.is2bpp) (nine_of nine.entry.words.now) x y) × (result ≤ 8) }
{
    let (bx, px) = across(nine.is2bpp, x);
    let k = 3 * (y / 4) + bx;
    let i = grid::block_width(nine.is2bpp) * (y % 4) + px;
    nine.words[k].weight[i] as u32
}

// The weight that a fill rule gives there.
fn fill(rule: Fill, nine: NineWords<'_>, x: usize, y: usize) -> u32
    requires { (0 < x) × (0 < y) × InNine nine.is2bpp (x + 1) (y + 1) }
    ensures { (result ≡ filled (half nine.entry.is2bpp) rule (nine_of nine.entry.words.now) x y) × (result ≤ 8) }
{
    match rule {
        Fill::Nothing => near(nine, x, y),
        Fill::Around => (near(nine, x, y - 1)
            + near(nine, x, y + 1)
            + near(nine, x - 1, y)
            + near(nine, x + 1, y)
            + 2)
            / 4,
        Fill::AboveBelow => (near(nine, x, y - 1) + near(nine, x, y + 1) + 1) / 2,
        Fill::LeftRight => (near(nine, x - 1, y) + near(nine, x + 1, y) + 1) / 2,
    }
}

// The fill rule at the place (px, py) of a block whose rule is `rule`.
fn rule_at(word: PVRTCTexelInfo, px: usize, py: usize) -> Fill
    requires { (px < 8) × (py < 4) }
    ensures { result ≡ rule_at word px py }
{
    if (px + py) % 2 == 0 {
        Fill::Nothing
    } else {
        word.fill
    }
}

// The weight at the place (px, py) of the middle block of nine. A struct of px and py would be made anew at each turn of the callers' loops.
pub fn weight_at(nine: NineWords<'_>, px: usize, py: usize) -> u32
    requires { Place nine.is2bpp px py }
    ensures value { result
        ≡ filled (half nine.entry.is2bpp) (rule_at (nine_of nine.entry.words.now 1 1) px py) (nine_of nine.entry.words.now)
        (px + block_width nine.entry.is2bpp) (py + 4) }
    ensures bound { result ≤ 8 }
{
    let rule = rule_at(nine.words[4], px, py);
    let width = grid::block_width(nine.is2bpp);
    fill(rule, nine, px + width, py + 4)
}

// Whether the texel at (px, py) of a block is punched through, by the block's flag.
pub fn punched(flag: u32, is2bpp: bool, px: usize, py: usize) -> bool
    requires { Place is2bpp px py }
    ensures { result ≡ is_set flag (block_width is2bpp * py + px) }
{
    (flag >> (grid::block_width(is2bpp) * py + px)) % 2 == 1
}
