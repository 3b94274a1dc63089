// The weights of a word's texels.
ghost use Rattle.std.specs.Prelude.{◌≡◌, cond, ◌+◌, ◌*◌, ◌^◌, ◌<◌};
ghost use Rattle.word.specs.Word as spec;
ghost use Rattle.word.specs.Word.{weight4bpp, punch4bpp, with_weights_4bpp, stored2bpp, weight2bpp, fill2bpp, with_weights_2bpp};

use crate::{Fill, PVRTCTexelInfo, byte_at};

// What codes mean.
static PVRTC1_STANDARD_WEIGHT: [u8; 4] = [0, 3, 5, 8];

// What they mean at 4bpp in mode 1.
static PVRTC1_PUNCHTHROUGH_WEIGHT: [u8; 4] = [0, 4, 4, 8];

// The word's modulation.
fn modulation(data: &[u8]) -> u32
    ensures { result ≡ spec.modulation «data».now }
{
    u32::from_le_bytes([
        byte_at(data, 0),
        byte_at(data, 1),
        byte_at(data, 2),
        byte_at(data, 3),
    ])
}

// Whether the word is in mode 1.
fn mode(data: &[u8]) -> bool
    ensures { result ≡ spec.mode «data».now }
{
    byte_at(data, 4) % 2 == 1
}

// 4bpp: the weight of texel i, in mode 1 if `one`.
#[tactic(auto, unfolding(crate::specs::Word::weight4bpp))]
fn weight_4bpp(one: bool, m: u32, i: usize) -> u8
    requires { i < 16 }
    ensures { result ≡ weight4bpp one m i }
{
    let code = ((m >> (2 * i)) % 4) as usize;
    if one {
        PVRTC1_PUNCHTHROUGH_WEIGHT[code]
    } else {
        PVRTC1_STANDARD_WEIGHT[code]
    }
}

// 4bpp: bit i, where texel i is punched through, or 0.
#[tactic(auto, unfolding(crate::specs::Word::punch4bpp))]
fn punch_4bpp(one: bool, m: u32, i: usize) -> u32
    requires { i < 16 }
    ensures { result ≡ cond (punch4bpp one m i) (2 ^ i) 0 }
{
    if one && (m >> (2 * i)) % 4 == 2 {
        1 << i
    } else {
        0
    }
}

// 4bpp: the word's weights, put into the record.
pub fn get_texel_weights_4bpp(data: &[u8], info: PVRTCTexelInfo) -> PVRTCTexelInfo
    ensures { result ≡ with_weights_4bpp «data».now info }
{
    let one = mode(data);
    let m = modulation(data);
    let mut weight = info.weight;
    let mut punch_through_flag = 0;
    for (i, w) in weight[..16].iter_mut().enumerate() {
        *w = weight_4bpp(one, m, i);
        punch_through_flag |= punch_4bpp(one, m, i);
    }
    PVRTCTexelInfo {
        weight,
        punch_through_flag,
        fill: Fill::Nothing,
        ..info
    }
}

// 2bpp, mode 1: the weight that texel i holds.
#[tactic(auto, unfolding(crate::specs::Word::stored2bpp))]
fn stored_weight(m: u32, i: usize) -> u8
    requires { i < 32 }
    ensures { result ≡ stored2bpp m i }
{
    let w = PVRTC1_STANDARD_WEIGHT[((m >> (2 * (i / 2))) % 4) as usize];
    if i == 0 || i == 20 && m % 2 == 1 {
        (w + 3) & 8
    } else {
        w
    }
}

// 2bpp: the weight of texel i, and 0 where it is to be filled.
#[tactic(auto, unfolding(crate::specs::Word::weight2bpp))]
fn weight_2bpp(one: bool, m: u32, i: usize) -> u8
    requires { i < 32 }
    ensures { result ≡ weight2bpp one m i }
{
    if one {
        if (i % 8 + i / 8) % 2 == 0 {
            stored_weight(m, i)
        } else {
            0
        }
    } else if (m >> i) % 2 == 1 {
        8
    } else {
        0
    }
}

// 2bpp: how the texels that hold no code are filled.
#[tactic(auto, unfolding(crate::specs::Word::fill2bpp))]
fn fill_2bpp(one: bool, m: u32) -> Fill
    ensures { result ≡ fill2bpp one m }
{
    if !one {
        Fill::Nothing
    } else if m % 2 == 0 {
        Fill::Around
    } else if (m >> 20) % 2 == 1 {
        Fill::AboveBelow
    } else {
        Fill::LeftRight
    }
}

// 2bpp: the word's weights and its fill rule, put into the record.
pub fn get_texel_weights_2bpp(data: &[u8], info: PVRTCTexelInfo) -> PVRTCTexelInfo
    ensures { result ≡ with_weights_2bpp «data».now info }
{
    let one = mode(data);
    let m = modulation(data);
    let mut weight = info.weight;
    for (i, w) in weight.iter_mut().enumerate() {
        *w = weight_2bpp(one, m, i);
    }
    PVRTCTexelInfo {
        weight,
        punch_through_flag: 0,
        fill: fill_2bpp(one, m),
        ..info
    }
}
