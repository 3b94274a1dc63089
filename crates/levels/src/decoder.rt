// The picture of a level.
ghost use Rattle.std.specs.Prelude.{◌≡◌};
ghost use Rattle.levels.specs.Calls.{LevelDecoded};
ghost use Rattle.levels.specs.Inner.{DecodedAt};

use crate::reader::read_level;
use crate::{Level, Refusal};
use pixel::ChannelOrder;
use pvrtc::GridMode;

// The picture of a described level: the block call on the bytes from its start on. A level that starts past the end has none.
fn decode_at(
    file: &[u8],
    level: Level,
    order: ChannelOrder,
    image: &mut [u32],
) -> Result<(), Refusal>
    ensures { DecodedAt order file.now level image.old image.new result }
{
    let start = level.start.min(file.len());
    let p = pvrtc::picture_of(
        level.width,
        level.height,
        level.is2bpp,
        GridMode::Stored,
        order,
    );
    pvrtc::decode_picture(&file[start..], p, image)?;
    Ok(())
}

// Level k of a file into lent words, as the block call writes it in the stored mode and this order of channels; or the first refusal whose
// condition holds.
pub fn decode_level(
    file: &[u8],
    k: usize,
    order: ChannelOrder,
    image: &mut [u32],
) -> Result<(), Refusal>
    ensures { LevelDecoded order file.now k image.old image.new result }
{
    let level = read_level(file, k)?;
    decode_at(file, level, order, image)
}
