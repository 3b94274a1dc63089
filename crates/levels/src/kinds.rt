// What a file of either kind says of its levels.
ghost use Rattle.levels.specs.Inner.{PvrFound, KtxFound, LevelsFound};

use crate::{Levels, Refusal};
use facts::refuse_if;

// The levels of a file that is taken as PVR: they follow its metadata.
fn pvr_levels(file: &[u8]) -> Result<Levels, Refusal>
    ensures { PvrFound file.now result }
{
    let plate = pvr::read_header(file)?;
    Ok(Levels {
        width: plate.width,
        height: plate.height,
        is2bpp: plate.is2bpp,
        count: pvr::level_count(file) as usize,
        start: pvr::payload_offset(file),
        sized: false,
    })
}

// The levels of a file that is taken as KTX: they follow its key/value bytes.
fn ktx_levels(file: &[u8]) -> Result<Levels, Refusal>
    ensures { KtxFound file.now result }
{
    let plate = ktx::read_fields(file)?;
    let start = ktx::size_place(file);
    refuse_if(
        file.len() < start,
        Refusal::Ktx(ktx::HeaderRefusal::CutShort),
    )?;
    Ok(Levels {
        width: plate.width,
        height: plate.height,
        is2bpp: plate.is2bpp,
        count: ktx::level_count(file) as usize,
        start,
        sized: true,
    })
}

// The levels of a file, by the reader that its first bytes choose.
pub fn read_levels(file: &[u8]) -> Result<Levels, Refusal>
    ensures { LevelsFound file.now result }
{
    if ktx::is_ktx(file) {
        ktx_levels(file)
    } else {
        pvr_levels(file)
    }
}
