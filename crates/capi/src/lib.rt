// What C calls: include/plate.h declares these functions, and `capi_c` exports them. A slice is a pointer and a length in C.
#![tactic(auto)]

ghost use Rattle.std.specs.Prelude.{◌≡◌, cond, eqb};
ghost use Rattle.capi.specs.Fields.{of_pvr, of_ktx, of_level, value};
ghost use Rattle.capi.specs.Plate.{mode_of, order_of, plate, texel_answer, WroteRow, WrotePicture, header_field};
ghost use Rattle.capi.specs.Ktx.{ktx_field, WroteKtx};
ghost use Rattle.capi.specs.Level.{level_field, WroteLevel};

use facts::{Numbered, number_said};
use levels::Level;
use pixel::ChannelOrder;
use pvrtc::{GridMode, Picture};

// What C can ask of a plate in a file: its sides, its depth, where its bytes start, and how many these are said to be or must be.
#[derive(Clone, Copy, Debug, PartialEq, Eq)]
struct Fields {
    width: usize,
    height: usize,
    is2bpp: bool,
    start: usize,
    size: usize,
}

// A PVR file says no size.
impl From<pvr::Plate> for Fields {
    ghost from_gives = { λ p f. f ≡ of_pvr p };

    fn from(plate: pvr::Plate) -> Fields {
        Fields {
            width: plate.width,
            height: plate.height,
            is2bpp: plate.is2bpp,
            start: plate.payload,
            size: 0,
        }
    }
}

impl From<ktx::Plate> for Fields {
    ghost from_gives = { λ p f. f ≡ of_ktx p };

    fn from(plate: ktx::Plate) -> Fields {
        Fields {
            width: plate.width,
            height: plate.height,
            is2bpp: plate.is2bpp,
            start: plate.payload,
            size: plate.size as usize,
        }
    }
}

impl From<Level> for Fields {
    ghost from_gives = { λ level f. f ≡ of_level level };

    fn from(level: Level) -> Fields {
        Fields {
            width: level.width,
            height: level.height,
            is2bpp: level.is2bpp,
            start: level.start,
            size: level.need,
        }
    }
}

impl Fields {
    // The field of a number, which is C's; 0 where there is none.
    fn value(self, field: u32) -> u64
        ensures { result ≡ value self field }
    {
        match field {
            1 => self.width as u64,
            2 => self.height as u64,
            3 => if self.is2bpp { 2 } else { 4 },
            4 => self.start as u64,
            5 => self.size as u64,
            _ => 0,
        }
    }
}

// A field where a file is refused: the refusal's number as field 0, and nothing else.
fn refused_field<E: Numbered>(f: E, field: u32) -> u64
    ensures { result ≡ cond (eqb field 0) (E.number f) 0 }
{
    if field == 0 { f.number() } else { 0 }
}

// The mode by C's number: 0 is the Rust's, any other the stored one. It and the order are another crate's: only that one could give them a `From`.
fn mode_of(mode: u32) -> GridMode
    ensures { result ≡ mode_of mode }
{
    match mode {
        0 => GridMode::Rust,
        _ => GridMode::Stored,
    }
}

// The order by C's number: 0 is blue first, any other red first.
fn order_of(order: u32) -> ChannelOrder
    ensures { result ≡ order_of order }
{
    match order {
        0 => ChannelOrder::BlueFirst,
        _ => ChannelOrder::RedFirst,
    }
}

// The description of a picture by C's numbers: depth 0 is 4bpp, any other 2bpp.
fn picture_of(width: u64, height: u64, depth: u32, mode: u32, order: u32) -> Picture
    ensures { result ≡ plate width height depth mode order }
{
    Picture {
        width: width as usize,
        height: height as usize,
        is2bpp: depth != 0,
        mode: mode_of(mode),
        order: order_of(order),
    }
}

// Texel (x, y): its word in the low 32 bits, the refusal's number above.
#[unsafe(no_mangle)]
pub extern "C" fn plate_texel(
    data: &[u8],
    width: u64,
    height: u64,
    depth: u32,
    mode: u32,
    order: u32,
    x: u64,
    y: u64,
) -> u64
    ensures { result ≡ texel_answer (plate width height depth mode order) «data».now x y }
{
    let p = picture_of(width, height, depth, mode, order);
    match pvrtc::decode_texel(data, p, x as usize, y as usize) {
        Ok(word) => word as u64,
        Err(f) => 4294967296 * f.number(),
    }
}

// Row y into lent words.
#[unsafe(no_mangle)]
pub extern "C" fn plate_row(
    data: &[u8],
    width: u64,
    height: u64,
    depth: u32,
    mode: u32,
    order: u32,
    y: u64,
    row: &mut [u32],
) -> u64
    ensures { WroteRow (plate width height depth mode order) «data».now y row.old row.new result }
{
    let p = picture_of(width, height, depth, mode, order);
    number_said(pvrtc::decode_row(data, p, y as usize, row))
}

// The whole picture into lent words.
#[unsafe(no_mangle)]
pub extern "C" fn plate_picture(
    data: &[u8],
    width: u64,
    height: u64,
    depth: u32,
    mode: u32,
    order: u32,
    image: &mut [u32],
) -> u64
    ensures { WrotePicture (plate width height depth mode order) «data».now image.old image.new result }
{
    let p = picture_of(width, height, depth, mode, order);
    number_said(pvrtc::decode_picture(data, p, image))
}

// A field of a PVR file's header.
#[unsafe(no_mangle)]
pub extern "C" fn plate_header(file: &[u8], field: u32) -> u64
    ensures { result ≡ header_field file.now field }
{
    match pvr::read_header(file) {
        Ok(plate) => Fields::from(plate).value(field),
        Err(f) => refused_field(f, field),
    }
}

// A field of a KTX file's header.
#[unsafe(no_mangle)]
pub extern "C" fn plate_ktx(file: &[u8], field: u32) -> u64
    ensures { result ≡ ktx_field file.now field }
{
    match ktx::read_header(file) {
        Ok(plate) => Fields::from(plate).value(field),
        Err(f) => refused_field(f, field),
    }
}

// The picture of a KTX file into lent words.
#[unsafe(no_mangle)]
pub extern "C" fn plate_ktx_picture(file: &[u8], order: u32, image: &mut [u32]) -> u64
    ensures { WroteKtx (order_of order) file.now image.old image.new result }
{
    number_said(ktx::decode_ktx(file, order_of(order), image))
}

// A field of a level of a PVR or a KTX file.
#[unsafe(no_mangle)]
pub extern "C" fn plate_level_field(file: &[u8], level: u64, field: u32) -> u64
    ensures { result ≡ level_field file.now level field }
{
    match levels::read_level(file, level as usize) {
        Ok(level) => Fields::from(level).value(field),
        Err(f) => refused_field(f, field),
    }
}

// A level of a PVR or a KTX file into lent words.
#[unsafe(no_mangle)]
pub extern "C" fn plate_level(file: &[u8], level: u64, order: u32, image: &mut [u32]) -> u64
    ensures { WroteLevel (order_of order) file.now level image.old image.new result }
{
    number_said(levels::decode_level(file, level as usize, order_of(order), image))
}
