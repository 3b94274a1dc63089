// The numbers of the refusals, and the refusals of what a file's decoding calls as its own.
ghost use Rattle.std.specs.Prelude.{◌≡◌};
ghost use Rattle.ktx.specs.declared.Refusal.TheVariants.{Unread, Picture};
ghost use Rattle.ktx.specs.Header.{number_of};
ghost use Rattle.ktx.specs.Numbers.{number-above, same-refusal, reason-above, same-reason};
ghost use Rattle.ktx.specs.Picture.{reason_number};

use crate::{HeaderRefusal, Refusal};
use facts::Numbered;

// Document 02's number of a header's refusal.
impl Numbered for HeaderRefusal {
    ghost number = { number_of };

    fn number(self) -> u64 {
        match self {
            HeaderRefusal::ShortHeader => 31,
            HeaderRefusal::NotKtx => 32,
            HeaderRefusal::OtherByteOrder => 33,
            HeaderRefusal::UnknownFormat => 34,
            HeaderRefusal::NotOnePlate => 35,
            HeaderRefusal::CutShort => 37,
        }
    }

    ghost above_zero = { number-above };

    ghost one_to_one = { same-refusal };
}

// The number that a file's decoding says.
impl Numbered for Refusal {
    ghost number = { reason_number };

    fn number(self) -> u64 {
        match self {
            Refusal::Unread(f) => f.number(),
            Refusal::OtherSize => 36,
            Refusal::Picture(f) => f.number(),
        }
    }

    ghost above_zero = { reason-above };

    ghost one_to_one = { same-reason };
}

impl From<HeaderRefusal> for Refusal {
    ghost from_gives = { λ f r. r ≡ Unread f };

    fn from(f: HeaderRefusal) -> Refusal {
        Refusal::Unread(f)
    }
}

impl From<pvrtc::Refusal> for Refusal {
    ghost from_gives = { λ f r. r ≡ Picture f };

    fn from(f: pvrtc::Refusal) -> Refusal {
        Refusal::Picture(f)
    }
}
