// The picture that a KTX file holds.
ghost use Rattle.ktx.specs.Picture.{KtxDecoded};
ghost use Rattle.ktx.specs.Inner.{SizedDecoded};

use crate::Refusal;
use crate::reader::read_header;
use facts::refuse_if;
use pixel::ChannelOrder;
use pvrtc::{GridMode, Picture};

// The picture of data whose size is said to be `size`: the sizes' refusals, then that of another size, then the block call's.
fn decode_sized(data: &[u8], p: Picture, size: u32, image: &mut [u32]) -> Result<(), Refusal>
    ensures { SizedDecoded p size «data».now image.old image.new result }
{
    pvrtc::check_sizes(p)?;
    let need = grid::need_of(pvrtc::grid_of(p));
    refuse_if(size as usize != need, Refusal::OtherSize)?;
    pvrtc::decode_picture(data, p, image)?;
    Ok(())
}

// The picture of a file into lent words, as the block call writes it in the stored mode and this order of channels; or the first refusal whose
// condition holds.
pub fn decode_ktx(file: &[u8], order: ChannelOrder, image: &mut [u32]) -> Result<(), Refusal>
    ensures { KtxDecoded order file.now image.old image.new result }
{
    let plate = read_header(file)?;
    let p = pvrtc::picture_of(
        plate.width,
        plate.height,
        plate.is2bpp,
        GridMode::Stored,
        order,
    );
    decode_sized(&file[plate.payload..], p, plate.size, image)
}
