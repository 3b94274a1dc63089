// A level's description, without an image: what a viewer must know before it lends one.
ghost use Rattle.std.specs.Prelude.{◌<◌};
ghost use Rattle.facts.specs.Checks.{first_of};
ghost use Rattle.levels.specs.Calls.{Answered, LevelRead};
ghost use Rattle.levels.specs.Levels.{level_at};
ghost use Rattle.levels.specs.Refusals.{own_checks};

use crate::check::{check_levels, check_size_word};
use crate::kinds::read_levels;
use crate::place::level_at;
use crate::{Level, Levels, Refusal};

// Level k of the levels that a file has, or the first refusal whose condition holds: by the sides, the number of levels, the size word.
fn describe(file: &[u8], l: Levels, k: usize) -> Result<Level, Refusal>
    requires { l.start < 4294967360 }
    ensures { Answered (first_of (own_checks file.now l k)) (level_at l k) result }
{
    check_levels(l, k)?;
    let level = level_at(l, k);
    if l.sized {
        check_size_word(file, level)?;
    }
    Ok(level)
}

// Level k of a file: its sides and depth, where its bytes start and how many it needs; or the first refusal whose condition holds, as far
// as its size word.
pub fn read_level(file: &[u8], k: usize) -> Result<Level, Refusal>
    ensures { LevelRead file.now k result }
{
    let levels = read_levels(file)?;
    describe(file, levels, k)
}
