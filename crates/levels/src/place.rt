// Where a level stands in a file: each from the one before it.
ghost use Rattle.std.specs.Prelude.{◌≡◌, suc, ◌≤◌, ◌<◌};
ghost use Rattle.grid.specs.Grid.{log2};
ghost use Rattle.levels.specs.Levels.{halved_once, size_word_bytes, taken_by, level_at};
ghost use Rattle.levels.specs.Inner.{need_of, first_level, next_level, Walks, Small};

use crate::{Level, Levels};
use pixel::ChannelOrder;
use pvrtc::GridMode;

// A side halved once: rounded down, and never below 1.
fn halved(side: usize) -> usize
    ensures { result ≡ halved_once side }
{
    (side / 2).max(1)
}

// How many levels a plate may have whose longer side is this: the first, and one for each halving down to 1.
pub fn most_levels(side: usize) -> usize
    requires { side ≤ 65536 }
    ensures { result ≡ suc (log2 side) }
{
    side.max(1).ilog2() as usize + 1
}

// The bytes that a level of these sides needs, in the stored grid of these sides. The order has no part in it.
fn need_of(width: usize, height: usize, is2bpp: bool) -> usize
    requires { (width ≤ 65536) × (height ≤ 65536) }
    ensures { (result ≡ need_of width height is2bpp) × (result ≤ 34359738368) }
{
    let p = pvrtc::picture_of(
        width,
        height,
        is2bpp,
        GridMode::Stored,
        ChannelOrder::BlueFirst,
    );
    grid::need_of(pvrtc::grid_of(p))
}

// The bytes of a size word, where there is one.
fn size_word_bytes(sized: bool) -> usize
    ensures { result ≡ size_word_bytes sized }
{
    if sized { 4 } else { 0 }
}

// The bytes that a level takes which needs so many: padded to four where there are size words.
fn taken_by(sized: bool, need: usize) -> usize
    requires { need ≤ 34359738368 }
    ensures { result ≡ taken_by sized need }
{
    if sized { (need + 3) / 4 * 4 } else { need }
}

// The first level.
fn first_level(l: Levels) -> Level
    requires { Walks l }
    ensures { result ≡ first_level l }
{
    Level {
        width: l.width,
        height: l.height,
        is2bpp: l.is2bpp,
        start: l.start + size_word_bytes(l.sized),
        need: need_of(l.width, l.height, l.is2bpp),
    }
}

// The level that follows another: its sides are halved, and it stands behind what the other takes and its own size word.
fn next_level(sized: bool, level: Level) -> Level
    requires { Small level }
    ensures { result ≡ next_level sized level }
{
    let width = halved(level.width);
    let height = halved(level.height);
    let end = level.start + taken_by(sized, level.need);
    let start = end + size_word_bytes(sized);
    Level {
        width,
        height,
        start,
        need: need_of(width, height, level.is2bpp),
        ..level
    }
}

// Level k, in k steps from the first.
pub fn level_at(l: Levels, k: usize) -> Level
    requires { Walks l × (k < 17) }
    ensures { result ≡ level_at l k }
{
    let mut level = first_level(l);
    for _ in 0..k {
        level = next_level(l.sized, level);
    }
    level
}
