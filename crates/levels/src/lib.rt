// All levels of a plate: level k of a PVR or a KTX file, described and decoded.
#![tactic(auto)]

mod check;
mod decoder;
mod kinds;
mod place;
mod reader;

ghost use Rattle.std.specs.Prelude.{◌≡◌};
ghost use Rattle.levels.specs.Numbers.{number-above, same-refusal};
ghost use Rattle.levels.specs.Refusals.{number_of};
ghost use Rattle.levels.specs.declared.Refusal.TheVariants as why;

pub use decoder::decode_level;
use facts::Numbered;
pub use reader::read_level;

// Why a level is refused: by a file's header, by the sides, by the number of levels, by a size word or by the block call.
#[derive(Clone, Copy, Debug, PartialEq, Eq)]
pub enum Refusal {
    Pvr(pvr::HeaderRefusal),
    Ktx(ktx::HeaderRefusal),
    Picture(pvrtc::Refusal),
    TooManyLevels,
    NoSuchLevel,
    OtherSize,
}

impl From<pvr::HeaderRefusal> for Refusal {
    ghost from_gives = { λ f r. r ≡ why.Pvr f };

    fn from(f: pvr::HeaderRefusal) -> Refusal {
        Refusal::Pvr(f)
    }
}

impl From<ktx::HeaderRefusal> for Refusal {
    ghost from_gives = { λ f r. r ≡ why.Ktx f };

    fn from(f: ktx::HeaderRefusal) -> Refusal {
        Refusal::Ktx(f)
    }
}

impl From<pvrtc::Refusal> for Refusal {
    ghost from_gives = { λ f r. r ≡ why.Picture f };

    fn from(f: pvrtc::Refusal) -> Refusal {
        Refusal::Picture(f)
    }
}

impl Numbered for Refusal {
    ghost number = { number_of };

    fn number(self) -> u64 {
        match self {
            Refusal::Pvr(f) => f.number(),
            Refusal::Ktx(f) => f.number(),
            Refusal::Picture(f) => f.number(),
            Refusal::TooManyLevels => 20,
            Refusal::NoSuchLevel => 19,
            Refusal::OtherSize => 36,
        }
    }

    ghost above_zero = { number-above };

    ghost one_to_one = { same-refusal };
}

// One level of a plate: its sides and depth, where its bytes start in the file, and how many it needs.
#[derive(Clone, Copy, Debug, PartialEq, Eq)]
pub struct Level {
    pub width: usize,
    pub height: usize,
    pub is2bpp: bool,
    pub start: usize,
    pub need: usize,
}

// What a file says of its plate's levels, whatever kind of file it is.
#[derive(Clone, Copy, Debug, PartialEq, Eq)]
pub struct Levels {
    // The sides of the first one.
    pub width: usize,
    pub height: usize,
    pub is2bpp: bool,
    // How many there are said to be.
    pub count: usize,
    // Where they start: behind the metadata, or the key/value bytes.
    pub start: usize,
    // Whether a size word stands before each, and each is padded to four bytes.
    pub sized: bool,
}
