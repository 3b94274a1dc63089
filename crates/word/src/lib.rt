// One word of a picture's data: its two colours and its texels' weights.
//
// Each reader takes the data from the word's first byte on, as the Rust does. A byte past the end reads as 0.
#![tactic(auto)]

mod weights;

ghost use Rattle.std.specs.Prelude.{◌≡◌, ◌+◌, ◌*◌, ◌<◌, get_or};
ghost use Rattle.word.specs.Word.{blue_a, blue_b, color_of, with_colors, unread, word_of};

pub use weights::{get_texel_weights_2bpp, get_texel_weights_4bpp};

// A colour as the word holds it: five bits each, alpha four.
#[derive(Clone, Copy)]
pub struct PVRTCTexelColor {
    pub r: u8,
    pub g: u8,
    pub b: u8,
    pub a: u8,
}

// How the texels of a 2bpp word that hold no code of their own are filled.
#[derive(Clone, Copy)]
pub enum Fill {
    Nothing,
    Around,
    AboveBelow,
    LeftRight,
}

// A word, read. At 4bpp the first sixteen weights count.
#[derive(Clone, Copy)]
pub struct PVRTCTexelInfo {
    pub a: PVRTCTexelColor,
    pub b: PVRTCTexelColor,
    pub weight: [u8; 32],
    pub punch_through_flag: u32,
    pub fill: Fill,
}

// The byte at i, or 0 past the end.
fn byte_at(data: &[u8], i: usize) -> u8
    ensures { result ≡ get_or «data».now i 0 }
{
    data.get(i).copied().unwrap_or(0)
}

// The bytes at i and i + 1, as one number.
fn u16_at(data: &[u8], i: usize) -> u16
    requires { i < 8 }
    ensures { result ≡ get_or «data».now i 0 + 256 * get_or «data».now (i + 1) 0 }
{
    u16::from_le_bytes([byte_at(data, i), byte_at(data, i + 1)])
}

// A colour's blue. A and B keep it in bits that differ in place and number, so each has its formula.
fn blue_a(c: u16) -> u8
    ensures { result ≡ blue_a c }
{
    if c / 32768 % 2 == 1 {
        (c / 2 % 16 * 2 + c / 16 % 2) as u8
    } else {
        (c / 2 % 8 * 4 + c / 4 % 4) as u8
    }
}

fn blue_b(c: u16) -> u8
    ensures { result ≡ blue_b c }
{
    if c / 32768 % 2 == 1 {
        (c % 32) as u8
    } else {
        (c % 16 * 2 + c / 8 % 2) as u8
    }
}

// A colour, given its blue.
fn color_of(c: u16, blue: u8) -> PVRTCTexelColor
    ensures { result ≡ color_of c blue }
{
    if c / 32768 % 2 == 1 {
        PVRTCTexelColor {
            r: (c / 1024 % 32) as u8,
            g: (c / 32 % 32) as u8,
            b: blue,
            a: 15,
        }
    } else {
        PVRTCTexelColor {
            r: (c / 256 % 16 * 2 + c / 2048 % 2) as u8,
            g: (c / 16 % 16 * 2 + c / 128 % 2) as u8,
            b: blue,
            a: (c / 4096 % 8 * 2) as u8,
        }
    }
}

// The word's two colours, put into the record.
pub fn get_texel_colors(data: &[u8], info: PVRTCTexelInfo) -> PVRTCTexelInfo
    ensures { result ≡ with_colors «data».now info }
{
    let ca = u16_at(data, 4);
    let cb = u16_at(data, 6);
    PVRTCTexelInfo {
        a: color_of(ca, blue_a(ca)),
        b: color_of(cb, blue_b(cb)),
        ..info
    }
}

// The record before anything is read into it. (By a derived Default the proof did not close: what it says, field by field, `cc` did not join.)
pub fn unread_info() -> PVRTCTexelInfo
    ensures { result ≡ unread }
{
    let black = PVRTCTexelColor {
        r: 0,
        g: 0,
        b: 0,
        a: 0,
    };
    PVRTCTexelInfo {
        a: black,
        b: black,
        weight: [0; 32],
        punch_through_flag: 0,
        fill: Fill::Nothing,
    }
}

// The whole word.
#[tactic(auto, unfolding(crate::specs::Word::word_of))]
pub fn read_word(data: &[u8], is2bpp: bool) -> PVRTCTexelInfo
    ensures { result ≡ word_of is2bpp «data».now }
{
    let info = get_texel_colors(data, unread_info());
    if is2bpp {
        get_texel_weights_2bpp(data, info)
    } else {
        get_texel_weights_4bpp(data, info)
    }
}
