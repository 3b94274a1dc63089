// What the program `plate` writes for a file: a picture as a TGA, or the line of a refusal.
#![tactic(auto)]

mod reasons;

ghost use Rattle.std.specs.Prelude.{◌≡◌, ◌+◌, ◌*◌, ◌/◌, ◌%◌, ◌<◌, ◌≤◌, length, get_or};
ghost use Rattle.facts.specs.Checks.{Says};
ghost use Rattle.facts.specs.Tab.{tab};
ghost use Rattle.files.specs.Fields.{byte_of};
ghost use Rattle.files.specs.Reading.{Shown};
ghost use Rattle.convert.specs.Output.{says_of, picture_of, long_side, limit_checks, refused_line, tga_header, tga_of, laid};
ghost use Rattle.convert.specs.Output.{Room, Converted, ConvertedInRoom};
ghost use Rattle.convert.specs.Inner.{number_of, FileDecoded, Laid, TgaFits};

use facts::{Numbered, refuse_if};
use files::Stored;
use pixel::ChannelOrder;
use pvrtc::{GridMode, Picture};

// Room for the largest picture that the limits let through: its words, and the bytes of its TGA.
pub const IMAGE_WORDS: usize = 131072;

pub const OUT_BYTES: usize = 18 + 4 * IMAGE_WORDS;

// Why no picture is written: the header's refusal, more skipped than the program takes, a side or a need above its limits, a size said that is not the
// need, or the block call's refusal.
#[derive(Clone, Copy)]
enum Refusal {
    Pvr(pvr::HeaderRefusal),
    Ktx(ktx::HeaderRefusal),
    LongSkipped,
    LongSide,
    LargeNeed,
    OtherSize,
    Picture(pvrtc::Refusal),
}

// What a file says, by the reader that its first bytes choose.
fn read_file(file: &[u8]) -> Result<Stored, Refusal>
    ensures { Shown number_of (says_of file.now) result }
{
    if ktx::is_ktx(file) {
        Ok(ktx::read_plate(file)?)
    } else {
        Ok(pvr::read_plate(file)?)
    }
}

// The picture of a stored plate, with the grid that files store. A TGA has blue first.
fn picture_of(s: Stored) -> Picture
    ensures { result ≡ picture_of s }
{
    pvrtc::picture_of(
        s.width,
        s.height,
        s.is2bpp,
        GridMode::Stored,
        ChannelOrder::BlueFirst,
    )
}

fn has_long_side(p: Picture) -> bool
    ensures { result ≡ long_side p }
{
    p.width > 1024 || p.height > 1024
}

// The first refusal of a stored plate that its data has no part in.
fn check_limits(s: Stored) -> Result<(), Refusal>
    ensures { Says number_of result (limit_checks s) }
{
    refuse_if(s.skipped > 4096, Refusal::LongSkipped)?;
    refuse_if(s.cut, Refusal::Ktx(ktx::HeaderRefusal::CutShort))?;
    let p = picture_of(s);
    refuse_if(
        pvrtc::has_zero_side(p),
        Refusal::Picture(pvrtc::Refusal::ZeroSide),
    )?;
    refuse_if(has_long_side(p), Refusal::LongSide)?;
    let need = grid::need_of(pvrtc::grid_of(p));
    refuse_if(need > 32768, Refusal::LargeNeed)?;
    refuse_if(!files::fits_size(s.size, need), Refusal::OtherSize)
}

// Decodes the picture that a file stores into `image`, or answers the first refusal whose condition holds.
fn decode_file(file: &[u8], image: &mut [u32]) -> Result<Stored, Refusal>
    requires { 131072 ≤ length image.old }
    ensures { FileDecoded file.now image.old image.new result }
{
    let s = read_file(file)?;
    check_limits(s)?;
    let data = file.get(s.payload..).unwrap_or(&[]);
    pvrtc::decode_picture(data, picture_of(s), image)?;
    Ok(s)
}

// Lays bytes in front of out.
fn put(bytes: &[u8], out: &mut [u8])
    requires { length bytes.now ≤ length out.old }
    ensures { out.new ≡ laid bytes.now out.old }
{
    out[..bytes.len()].copy_from_slice(bytes);
}

// Lays the line of refusal n, and says how long it is.
fn put_refused(n: u64, out: &mut [u8]) -> usize
    requires { (n < 100) × (11 ≤ length out.old) }
    ensures { Laid (refused_line n) out.old out.new result }
{
    if n < 10 {
        let units = 48 + (n as u8);
        let line = [b'r', b'e', b'f', b'u', b's', b'e', b'd', b' ', units, b'\n'];
        put(&line, out);
        return 10;
    }
    let tens = 48 + ((n / 10) as u8);
    let units = 48 + ((n % 10) as u8);
    let line = [
        b'r', b'e', b'f', b'u', b's', b'e', b'd', b' ', tens, units, b'\n',
    ];
    put(&line, out);
    11
}

// Lays the header of a TGA of w by h words.
fn put_tga_header(w: usize, h: usize, out: &mut [u8])
    requires { (w ≤ 1024) × (h ≤ 1024) × (18 ≤ length out.old) }
    ensures { out.new ≡ laid (tga_header w h) out.old }
{
    let [w0, w1] = (w as u16).to_le_bytes();
    let [h0, h1] = (h as u16).to_le_bytes();
    let header = [
        0, 0, 2, 0, 0, 0, 0, 0, 0, 0, 0, 0, w0, w1, h0, h1, 0x20, 0x28,
    ];
    put(&header, out);
}

// Writes the bytes of the words, each word little-endian.
fn put_words(words: &[u32], out: &mut [u8])
    requires { length out.old ≡ 4 * length words.now }
    ensures { out.new ≡ tab (λ i. byte_of (get_or words.now (i / 4) 0) (i % 4)) (4 * length words.now) }
{
    // not by `chunks_exact_mut`: of the bytes that it lends, the library says nothing afterwards
    for (i, byte) in out.iter_mut().enumerate() {
        *byte = files::byte_of(words[i / 4], i % 4);
    }
}

// Lays the TGA of w by h words, and says how long it is.
fn put_tga(w: usize, h: usize, words: &[u32], out: &mut [u8]) -> usize
    requires { TgaFits w h (length words.now) (length out.old) }
    ensures { Laid (tga_of w h (λ k. get_or words.now k 0)) out.old out.new result }
{
    let n = w * h;
    let size = 18 + 4 * n;
    put_tga_header(w, h, out);
    put_words(&words[..n], &mut out[18..size]);
    size
}

// Lays what is to be written for a file in front of `out`, and says how many bytes that is. The picture's words are decoded into `image`.
pub fn convert(file: &[u8], image: &mut [u32], out: &mut [u8]) -> usize
    requires { Room (length image.old) (length out.old) }
    ensures { Converted file.now image.old image.new out.old out.new result }
{
    match decode_file(file, image) {
        Ok(s) => put_tga(s.width, s.height, image, out),
        Err(f) => put_refused(f.number(), out),
    }
}

// The same for C, of which nothing can be asked, exported by `convert_c`: with too little room for some file it answers 0 and writes nothing.
#[unsafe(no_mangle)]
pub extern "C" fn plate_convert(file: &[u8], image: &mut [u32], out: &mut [u8]) -> usize
    ensures { ConvertedInRoom file.now image.old image.new out.old out.new result }
{
    if image.len() < IMAGE_WORDS || out.len() < OUT_BYTES {
        return 0;
    }
    convert(file, image, out)
}
