// What a file is refused for.
ghost use Rattle.std.specs.Prelude.{◌≡◌, Some};
ghost use Rattle.std.specs.Fmt.{decimal};
ghost use Rattle.replayed.specs.Faults.{brought, number_of};

use std::fmt;

// Why a call or the program refuses a file, with the documents' number, by which a listing names it. 137 is the 37 for an asked level.
#[derive(Clone, Copy, Debug, PartialEq, Eq)]
pub enum Fault {
    ZeroSide = 1,
    LargeSide = 2,
    ShortData = 3,
    ShortImage = 4,
    NotPowerOfTwo = 5,
    ShortPvrHeader = 11,
    NotPvr = 12,
    UnknownPvrFormat = 13,
    DepthNotOne = 14,
    SurfacesNotOne = 15,
    FacesNotOne = 16,
    NoLevel = 17,
    UnknownFlags = 18,
    NoSuchLevel = 19,
    TooManyLevels = 20,
    MuchSkipped = 21,
    LongSide = 22,
    LargeNeed = 23,
    ShortKtxHeader = 31,
    NotKtx = 32,
    OtherByteOrder = 33,
    UnknownKtxFormat = 34,
    NotOnePlate = 35,
    OtherSize = 36,
    CutShort = 37,
    CutBeforeLevel = 137,
}

impl Fault {
    // Brings into a file what this is given for, where that is one field of the header which is wrong whatever else the file says.
    pub fn bring(self, bytes: &mut [u8])
        ensures { bytes.new ≡ brought self bytes.old }
    {
        match self {
            Fault::NotPvr => samples::set_u32(bytes, 0, 0x03525600),
            Fault::UnknownFlags => samples::set_u32(bytes, 4, 1),
            Fault::UnknownPvrFormat => samples::set_u32(bytes, 8, 4),
            Fault::DepthNotOne => samples::set_u32(bytes, 32, 2),
            Fault::SurfacesNotOne => samples::set_u32(bytes, 36, 2),
            Fault::FacesNotOne => samples::set_u32(bytes, 40, 6),
            Fault::NotKtx => samples::set_u32(bytes, 4, 0xbb303220),
            Fault::OtherByteOrder => samples::set_u32(bytes, 12, 0x01020304),
            Fault::UnknownKtxFormat => samples::set_u32(bytes, 28, 0x8c04),
            Fault::NotOnePlate => samples::set_u32(bytes, 52, 6),
            _ => {}
        }
    }
}

impl fmt::Display for Fault {
    ghost output = { λ f. Some (decimal (number_of f)) };

    fn fmt<W: fmt::Write>(&self, f: &mut fmt::Formatter<W>) -> fmt::Result {
        write!(f, "{}", *self as u8)
    }
}
