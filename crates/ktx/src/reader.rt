// The header of a KTX version 1 file, with what follows it up to the data: key/value bytes and a size word.
ghost use Rattle.std.specs.Prelude.{◌≡◌, ◌<◌};
ghost use Rattle.files.specs.Reading.{Shown};
ghost use Rattle.ktx.specs.Header.{is_ktx, has_four_bits, has_two_bits, is_pvrtc, unknown_format, not_one_plate};
ghost use Rattle.ktx.specs.Header.{level_count, size_place, size_word_of, number_of, HeaderRead};
ghost use Rattle.ktx.specs.Inner.{FieldsSay};
ghost use Rattle.ktx.specs.Reading.{ktx_plate, FieldsRead, ktx_says};

use crate::{HeaderRefusal, Plate};
use facts::refuse_if;
use files::Stored;

// The bytes that a header begins with.
const IDENTIFIER: [u8; 12] = [
    0xAB, 0x4B, 0x54, 0x58, 0x20, 0x31, 0x31, 0xBB, 0x0D, 0x0A, 0x1A, 0x0A,
];

// The first bytes of a file that is taken as KTX.
const KTX_BYTES: [u8; 4] = [0xAB, 0x4B, 0x54, 0x58];

// Whether a file is taken as KTX.
pub fn is_ktx(file: &[u8]) -> bool
    ensures { result ≡ is_ktx file.now }
{
    files::starts_with(file, &KTX_BYTES)
}

// Whether an internal format is PVRTC at 4 bits a texel: without alpha, or with it.
fn is_4bpp(format: u32) -> bool
    ensures { result ≡ has_four_bits format }
{
    format == 0x8C00 || format == 0x8C02
}

// The same at 2 bits. One function of both, told two numbers, would say less.
fn is_2bpp(format: u32) -> bool
    ensures { result ≡ has_two_bits format }
{
    format == 0x8C01 || format == 0x8C03
}

fn is_pvrtc(format: u32) -> bool
    ensures { result ≡ is_pvrtc format }
{
    is_4bpp(format) || is_2bpp(format)
}

// Whether the fields say that the texels are not PVRTC's: the type at 16, the format at 24, the internal format at 28.
fn is_unknown_format(file: &[u8]) -> bool
    ensures { result ≡ unknown_format file.now }
{
    files::u32_at(file, 16) != 0
        || files::u32_at(file, 24) != 0
        || !is_pvrtc(files::u32_at(file, 28))
}

// Whether a field says that the file holds something else than one plate: the depth at 44, array elements at 48, faces at 52.
// Inside its caller the fields are known to be there, which a call of its own would ask for each.
#[inline(always)]
fn is_not_one_plate(file: &[u8]) -> bool
    ensures { result ≡ not_one_plate file.now }
{
    files::u32_at(file, 44) != 0 || files::u32_at(file, 48) != 0 || files::u32_at(file, 52) != 1
}

// The first refusal of the fields whose condition holds.
fn check_fields(file: &[u8]) -> Result<(), HeaderRefusal>
    ensures { FieldsSay file.now result }
{
    refuse_if(file.len() < 64, HeaderRefusal::ShortHeader)?;
    refuse_if(
        !files::starts_with(file, &IDENTIFIER),
        HeaderRefusal::NotKtx,
    )?;
    refuse_if(
        files::u32_at(file, 12) != 0x04030201,
        HeaderRefusal::OtherByteOrder,
    )?;
    refuse_if(is_unknown_format(file), HeaderRefusal::UnknownFormat)?;
    refuse_if(is_not_one_plate(file), HeaderRefusal::NotOnePlate)
}

// How many levels the file says that it holds, by the field at 56: none means one.
pub fn level_count(file: &[u8]) -> u32
    ensures { (result ≡ level_count file.now) × (result < 4294967296) }
{
    files::u32_at(file, 56).max(1)
}

// Where the key/value bytes end; how many these are stands at 60. A size word follows. Inlined for the same reason.
#[inline(always)]
pub fn size_place(file: &[u8]) -> usize
    ensures { (result ≡ size_place file.now) × (result < 4294967360) }
{
    64 + (files::u32_at(file, 60) as usize)
}

// The size word.
fn size_word(file: &[u8]) -> u32
    ensures { (result ≡ size_word_of file.now) × (result < 4294967296) }
{
    files::u32_at(file, size_place(file))
}

// The plate that the fields describe: the internal format at 28, the width at 36, the height at 40.
fn stored_plate(file: &[u8]) -> Stored
    ensures { result ≡ ktx_plate file.now }
{
    let place = size_place(file);
    let payload = place + 4;
    Stored {
        width: files::u32_at(file, 36) as usize,
        height: files::u32_at(file, 40) as usize,
        is2bpp: is_2bpp(files::u32_at(file, 28)),
        skipped: place - 64,
        cut: file.len() < payload,
        size: Some(size_word(file)),
        payload,
    }
}

// The plate that the fields describe, cut short or not, or the first refusal of theirs whose condition holds.
pub fn read_fields(file: &[u8]) -> Result<Stored, HeaderRefusal>
    ensures { FieldsRead file.now result }
{
    check_fields(file)?;
    Ok(stored_plate(file))
}

// The sizes, the depth, the payload offset and the size word of the plate that a file holds, or the first refusal whose condition holds.
pub fn read_header(file: &[u8]) -> Result<Plate, HeaderRefusal>
    ensures { HeaderRead file.now result }
{
    let stored = read_fields(file)?;
    refuse_if(stored.cut, HeaderRefusal::CutShort)?;
    // The size word is the one that was read with the fields: a KTX file always says a size.
    Ok(Plate {
        width: stored.width,
        height: stored.height,
        is2bpp: stored.is2bpp,
        payload: stored.payload,
        size: stored.size.unwrap_or(0),
    })
}

// What the program is told of a file that is taken as KTX.
pub fn read_plate(file: &[u8]) -> Result<Stored, HeaderRefusal>
    ensures { Shown number_of (ktx_says file.now) result }
{
    read_fields(file)
}
