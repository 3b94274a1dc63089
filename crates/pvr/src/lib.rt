// The header of a PVR version 3 file.
#![tactic(auto)]

ghost use Rattle.std.specs.Prelude.{◌≡◌, ◌<◌};
ghost use Rattle.files.specs.Reading.{Shown};
ghost use Rattle.pvr.specs.Header.{known_flags, levels_field, payload_offset, number_of, HeaderRead};
ghost use Rattle.pvr.specs.Inner.{CountsSay};
ghost use Rattle.pvr.specs.Numbers.{number-above, same-refusal};
ghost use Rattle.pvr.specs.Reading.{pvr_says};

use facts::{Numbered, refuse_if};
use files::Stored;

// The bytes that a header begins with.
const VERSION: [u8; 4] = [0x50, 0x56, 0x52, 0x03];

// Why a header is refused, in the words of documents 01 and 02.
#[derive(Clone, Copy, Debug, PartialEq, Eq)]
pub enum HeaderRefusal {
    ShortHeader,
    NotPvr,
    UnknownFlags,
    UnknownFormat,
    DepthNotOne,
    SurfacesNotOne,
    FacesNotOne,
    NoLevel,
}

impl Numbered for HeaderRefusal {
    ghost number = { number_of };

    fn number(self) -> u64 {
        match self {
            HeaderRefusal::ShortHeader => 11,
            HeaderRefusal::NotPvr => 12,
            HeaderRefusal::UnknownFlags => 18,
            HeaderRefusal::UnknownFormat => 13,
            HeaderRefusal::DepthNotOne => 14,
            HeaderRefusal::SurfacesNotOne => 15,
            HeaderRefusal::FacesNotOne => 16,
            HeaderRefusal::NoLevel => 17,
        }
    }

    ghost above_zero = { number-above };

    ghost one_to_one = { same-refusal };
}

// What a header says of its plate: the sides, the depth and where the first level starts.
#[derive(Clone, Copy, Debug, PartialEq, Eq)]
pub struct Plate {
    pub width: usize,
    pub height: usize,
    pub is2bpp: bool,
    pub payload: usize,
}

// Whether flags are 0, or 2 for premultiplied.
fn are_known_flags(flags: u32) -> bool
    ensures { result ≡ known_flags flags }
{
    flags == 0 || flags == 2
}

// The first refusal of the counts whose condition holds: the depth at 32, surfaces at 36, faces at 40, levels at 44.
// Inside its caller the fields are known to be there, which a call of its own would ask for each.
#[inline(always)]
fn check_counts(file: &[u8]) -> Result<(), HeaderRefusal>
    ensures { CountsSay file.now result }
{
    refuse_if(files::u32_at(file, 32) != 1, HeaderRefusal::DepthNotOne)?;
    refuse_if(files::u32_at(file, 36) != 1, HeaderRefusal::SurfacesNotOne)?;
    refuse_if(files::u32_at(file, 40) != 1, HeaderRefusal::FacesNotOne)?;
    refuse_if(files::u32_at(file, 44) == 0, HeaderRefusal::NoLevel)
}

// How many levels the file says that it holds, by the field at 44.
pub fn level_count(file: &[u8]) -> u32
    ensures { (result ≡ levels_field file.now) × (result < 4294967296) }
{
    files::u32_at(file, 44)
}

// Where the first level starts: behind the metadata, whose size stands at 48. Inlined for the same reason as the counts.
#[inline(always)]
pub fn payload_offset(file: &[u8]) -> usize
    ensures { (result ≡ payload_offset file.now) × (result < 4294967348) }
{
    52 + (files::u32_at(file, 48) as usize)
}

// The plate that a file's header describes, or the first refusal whose condition holds.
pub fn read_header(file: &[u8]) -> Result<Plate, HeaderRefusal>
    ensures { HeaderRead file.now result }
{
    refuse_if(file.len() < 52, HeaderRefusal::ShortHeader)?;
    refuse_if(!files::starts_with(file, &VERSION), HeaderRefusal::NotPvr)?;
    let flags = files::u32_at(file, 4);
    refuse_if(!are_known_flags(flags), HeaderRefusal::UnknownFlags)?;
    let format = files::u64_at(file, 8);
    refuse_if(format > 3, HeaderRefusal::UnknownFormat)?;
    check_counts(file)?;
    Ok(Plate {
        width: files::u32_at(file, 28) as usize,
        height: files::u32_at(file, 24) as usize,
        is2bpp: format < 2,
        payload: payload_offset(file),
    })
}

// What the program is told of a file that is taken as PVR.
pub fn read_plate(file: &[u8]) -> Result<Stored, HeaderRefusal>
    ensures { Shown number_of (pvr_says file.now) result }
{
    let plate = read_header(file)?;
    Ok(Stored {
        width: plate.width,
        height: plate.height,
        is2bpp: plate.is2bpp,
        skipped: plate.payload - 52,
        cut: false,
        size: None,
        payload: plate.payload,
    })
}
