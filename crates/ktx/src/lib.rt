// A KTX version 1 file: its header, and the picture that it holds.
#![tactic(auto)]

mod decoder;
mod numbers;
mod reader;

pub use decoder::decode_ktx;
pub use reader::{is_ktx, level_count, read_fields, read_header, read_plate, size_place};

// Why a header is refused, in document 02's words.
#[derive(Clone, Copy, Debug, PartialEq, Eq)]
pub enum HeaderRefusal {
    ShortHeader,
    NotKtx,
    OtherByteOrder,
    UnknownFormat,
    NotOnePlate,
    CutShort,
}

// What a header says of its plate: the sides, the depth, where the data begins, and how many bytes it is said to have.
#[derive(Clone, Copy, Debug, PartialEq, Eq)]
pub struct Plate {
    pub width: usize,
    pub height: usize,
    pub is2bpp: bool,
    pub payload: usize,
    pub size: u32,
}

// Why a file is not decoded: the header's refusal, that the file says another size than its picture needs, or the block call's refusal.
#[derive(Clone, Copy, Debug, PartialEq, Eq)]
pub enum Refusal {
    Unread(HeaderRefusal),
    OtherSize,
    Picture(pvrtc::Refusal),
}
