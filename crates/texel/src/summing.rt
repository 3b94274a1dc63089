// Sums of colours by shares: down the columns of words about a block, and then across them.
ghost use Rattle.std.specs.Prelude.{◌≡◌, ◌*◌, ◌≤◌, ◌<◌};
ghost use Rattle.grid.specs.Grid.{half, block_width};
ghost use Rattle.word.specs.Word.{Small};
ghost use Rattle.texel.specs.Inner.{nine_of, SmallColors, Low};
ghost use Rattle.texel.specs.Summed as spec;
ghost use Rattle.texel.specs.Summed.{shares, three, widened, window_of, across_of, LowColumns};

use crate::{Columns, PVRTCTexelColorInt, ShareRow, Window};
use word::{PVRTCTexelColor, PVRTCTexelInfo};

// The shares of the previous, the own and the next block, for each place across a block at 2bpp.
static INTERP_WEIGHT_X: [[u32; 3]; 8] = [
    [4, 4, 0],
    [3, 5, 0],
    [2, 6, 0],
    [1, 7, 0],
    [0, 8, 0],
    [0, 7, 1],
    [0, 6, 2],
    [0, 5, 3],
];

// The same down a block at either depth, and across one at 4bpp.
static INTERP_WEIGHT_Y: [[u32; 3]; 4] = [[2, 2, 0], [1, 3, 0], [0, 4, 0], [0, 3, 1]];

// The shares at the place px across a block.
pub fn shares_across(is2bpp: bool, px: usize) -> ShareRow
    requires { px < block_width is2bpp }
    ensures { result.of ≡ shares (half is2bpp) px }
{
    if is2bpp {
        return ShareRow {
            of: INTERP_WEIGHT_X[px],
        };
    }
    shares_down(px)
}

// The shares at the place py down a block.
pub fn shares_down(py: usize) -> ShareRow
    requires { py < 4 }
    ensures { result.of ≡ shares 2 py }
{
    ShareRow {
        of: INTERP_WEIGHT_Y[py],
    }
}

// Three numbers by a row of shares.
fn by_shares(p: u32, q: u32, s: u32, row: ShareRow) -> u32
    requires { (p ≤ 124) × (q ≤ 124) × (s ≤ 124) }
    ensures { result ≡ three row.of p q s }
{
    p * row.of[0] + q * row.of[1] + s * row.of[2]
}

// The channels of three colours by a row of shares.
fn weighed(
    p: PVRTCTexelColorInt,
    q: PVRTCTexelColorInt,
    s: PVRTCTexelColorInt,
    row: ShareRow,
) -> PVRTCTexelColorInt
    requires { Low 4 p × Low 4 q × Low 4 s }
    ensures { result ≡ spec.weighed row.of p q s }
{
    PVRTCTexelColorInt {
        r: by_shares(p.r, q.r, s.r, row),
        g: by_shares(p.g, q.g, s.g, row),
        b: by_shares(p.b, q.b, s.b, row),
        a: by_shares(p.a, q.a, s.a, row),
    }
}

// A colour's channels, with room for sums.
impl From<PVRTCTexelColor> for PVRTCTexelColorInt {
    ghost from_gives = { λ c s. s ≡ widened c };

    fn from(c: PVRTCTexelColor) -> PVRTCTexelColorInt {
        PVRTCTexelColorInt {
            r: u32::from(c.r),
            g: u32::from(c.g),
            b: u32::from(c.b),
            a: u32::from(c.a),
        }
    }
}

// The colours of three words above one another by a row of shares.
fn column(
    above: PVRTCTexelColor,
    own: PVRTCTexelColor,
    below: PVRTCTexelColor,
    row: ShareRow,
) -> PVRTCTexelColorInt
    requires { Small above × Small own × Small below }
    ensures { result ≡ spec.weighed row.of (widened above) (widened own) (widened below) }
{
    weighed(above.into(), own.into(), below.into(), row)
}

// The three columns of nine words, of colour A and of B.
pub fn sum_down(nine: &[PVRTCTexelInfo; 9], row: ShareRow) -> Window
    requires { SmallColors nine.now }
    ensures { result ≡ window_of (nine_of nine.now) row.of }
{
    Window {
        a: Columns {
            previous: column(nine[0].a, nine[3].a, nine[6].a, row),
            own: column(nine[1].a, nine[4].a, nine[7].a, row),
            next: column(nine[2].a, nine[5].a, nine[8].a, row),
        },
        b: Columns {
            previous: column(nine[0].b, nine[3].b, nine[6].b, row),
            own: column(nine[1].b, nine[4].b, nine[7].b, row),
            next: column(nine[2].b, nine[5].b, nine[8].b, row),
        },
    }
}

// Three columns by a row of shares.
pub fn sum_across(columns: Columns, row: ShareRow) -> PVRTCTexelColorInt
    requires { LowColumns columns }
    ensures { result ≡ across_of columns row.of }
{
    weighed(columns.previous, columns.own, columns.next, row)
}
