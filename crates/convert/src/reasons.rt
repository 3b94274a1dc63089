// The numbers of the program's refusals, and the refusals of what it calls as its own.
ghost use Rattle.std.specs.Prelude.{◌≡◌};
ghost use Rattle.convert.specs.declared.Refusal.TheVariants.{Pvr, Ktx, Picture};
ghost use Rattle.convert.specs.Inner.{number_of};
ghost use Rattle.convert.specs.Numbers.{number-above, same-refusal};

use crate::Refusal;
use facts::Numbered;

impl Numbered for Refusal {
    ghost number = { number_of };

    fn number(self) -> u64 {
        match self {
            Refusal::Pvr(f) => f.number(),
            Refusal::Ktx(f) => f.number(),
            Refusal::LongSkipped => 21,
            Refusal::LongSide => 22,
            Refusal::LargeNeed => 23,
            Refusal::OtherSize => 36,
            Refusal::Picture(f) => f.number(),
        }
    }

    ghost above_zero = { number-above };

    ghost one_to_one = { same-refusal };
}

impl From<pvr::HeaderRefusal> for Refusal {
    ghost from_gives = { λ f r. r ≡ Pvr f };

    fn from(f: pvr::HeaderRefusal) -> Refusal {
        Refusal::Pvr(f)
    }
}

impl From<ktx::HeaderRefusal> for Refusal {
    ghost from_gives = { λ f r. r ≡ Ktx f };

    fn from(f: ktx::HeaderRefusal) -> Refusal {
        Refusal::Ktx(f)
    }
}

impl From<pvrtc::Refusal> for Refusal {
    ghost from_gives = { λ f r. r ≡ Picture f };

    fn from(f: pvrtc::Refusal) -> Refusal {
        Refusal::Picture(f)
    }
}
