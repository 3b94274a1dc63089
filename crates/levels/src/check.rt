// The refusals of a level past the header, in their order.
ghost use Rattle.std.specs.Prelude.{◌≡◌, false, ◌++◌, ◌≤◌};
ghost use Rattle.pvrtc.specs.Refusals.{large_side, size_checks};
ghost use Rattle.levels.specs.Levels.{plate_in};
ghost use Rattle.levels.specs.Refusals.{too_many_levels, count_checks, word_checks, Says};

use crate::place::most_levels;
use crate::{Level, Levels, Refusal};
use facts::refuse_if;
use pixel::ChannelOrder;
use pvrtc::GridMode;

// The refusals of the plate's sides. The order has no part in them.
fn check_sides(l: Levels) -> Result<(), Refusal>
    ensures { Says result (size_checks (plate_in l)) }
{
    let p = pvrtc::picture_of(
        l.width,
        l.height,
        l.is2bpp,
        GridMode::Stored,
        ChannelOrder::BlueFirst,
    );
    pvrtc::check_sizes(p).map_err(Refusal::Picture)
}

// Whether there are more levels than halvings of the longer side allow.
fn has_too_many(l: Levels) -> bool
    requires { large_side (plate_in l) ≡ false }
    ensures { result ≡ too_many_levels l }
{
    most_levels(l.width.max(l.height)) < l.count
}

// The refusals of the plate's sides, and then those of the number of levels.
pub fn check_levels(l: Levels, k: usize) -> Result<(), Refusal>
    ensures { Says result (size_checks (plate_in l) ++ count_checks l k) }
{
    check_sides(l)?;
    refuse_if(has_too_many(l), Refusal::TooManyLevels)?;
    refuse_if(l.count <= k, Refusal::NoSuchLevel)
}

// The refusals of a level's size word, the four bytes before it.
pub fn check_size_word(file: &[u8], level: Level) -> Result<(), Refusal>
    requires { 4 ≤ level.start }
    ensures { Says result (word_checks file.now level) }
{
    refuse_if(
        file.len() < level.start,
        Refusal::Ktx(ktx::HeaderRefusal::CutShort),
    )?;
    let word = files::u32_at(file, level.start - 4) as usize;
    refuse_if(word != level.need, Refusal::OtherSize)
}
