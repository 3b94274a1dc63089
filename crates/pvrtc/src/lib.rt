// The calls: a texel, a row, all blocks of a picture.
#![tactic(auto)]

mod block_call;
mod check;
mod layout;
mod plain;
mod row_call;
mod texel_call;

pub use block_call::{decode_picture, decode_pvrtc, decode_pvrtc_2bpp, decode_pvrtc_4bpp};
pub use check::{check_sizes, has_zero_side};
pub use layout::{grid_of, in_order, picture_of};
use pixel::ChannelOrder;
pub use plain::decode_pvrtc_plain;
pub use row_call::decode_row;
pub use texel_call::decode_texel;

// Why a call refuses, in document 01's words.
#[derive(Clone, Copy, Debug, PartialEq, Eq)]
pub enum Refusal {
    ZeroSide,
    LargeSide,
    ShortData,
    ShortImage,
    NotPowerOfTwo,
    Outside,
}

// How many blocks a picture's grid has: as many as the Rust counts, those that cover the picture; or as many as files store, two each way
// at least.
#[derive(Clone, Copy, Debug, PartialEq, Eq)]
pub enum GridMode {
    Rust,
    Stored,
}

// The description of a picture. `picture_of` makes one; its grid and its sheet are `layout`'s.
#[derive(Clone, Copy, Debug, PartialEq, Eq)]
pub struct Picture {
    pub width: usize,
    pub height: usize,
    pub is2bpp: bool,
    pub mode: GridMode,
    pub order: ChannelOrder,
}

// Which call is made, with what it asks for: a texel; a row of lent words; all blocks into lent words.
#[derive(Clone, Copy, Debug, PartialEq, Eq)]
pub enum Call {
    Texel { x: usize, y: usize },
    Row { y: usize, room: usize },
    Block { room: usize },
}
