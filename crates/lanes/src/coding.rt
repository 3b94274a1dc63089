// What a word's modulation says at 4bpp: a code of two bits for each texel.
ghost use Rattle.std.specs.Prelude.{false, ◌≡◌, ◌+◌, ◌*◌, ◌<◌, ◌≤◌, length};
ghost use Rattle.lanes.specs.Block4bpp.{codes_of, codes_at, code_meaning};
ghost use Rattle.std.proofs.Common.{refl};

use crate::modulation::{KEPT, Modulation, mode_at};
use crate::{Addresses, Codes, Meaning};

// Of a texel that is punched through alpha is cleared.
const CLEAR: u64 = 0x000000ff00ff00ff;

// What codes 0 to 3 mean in mode 0, and in mode 1.
static MEANINGS: [[Meaning; 4]; 2] = [
    [
        Meaning {
            weight: 0,
            keep: KEPT,
        },
        Meaning {
            weight: 3,
            keep: KEPT,
        },
        Meaning {
            weight: 5,
            keep: KEPT,
        },
        Meaning {
            weight: 8,
            keep: KEPT,
        },
    ],
    [
        Meaning {
            weight: 0,
            keep: KEPT,
        },
        Meaning {
            weight: 4,
            keep: KEPT,
        },
        Meaning {
            weight: 4,
            keep: CLEAR,
        },
        Meaning {
            weight: 8,
            keep: KEPT,
        },
    ],
];

impl Modulation for Codes {
    type Row = Codes;

    const HALF: usize = 2;

    ghost HALF = { 2 };

    ghost two = { false };

    ghost stored = { codes_of };

    ghost Good = { λ _. Unit {0} };

    ghost row_of = { codes_at };

    ghost says = { code_meaning };

    fn read(d: &[u8], z: usize) -> Codes {
        let at = 8 * z;
        Codes {
            modulation: u32::from_le_bytes([d[at], d[at + 1], d[at + 2], d[at + 3]]) as u64,
            punches: mode_at(d, z),
        }
    }

    // At 4bpp nothing is filled.
    fn fill(_left: Codes, own: Codes, _right: Codes, _d: &[u8], _at: Addresses) -> Codes {
        own
    }

    fn row(self, j: usize) -> Codes {
        Codes {
            modulation: self.modulation >> (8 * j),
            ..self
        }
    }

    fn meaning(row: Codes, i: usize) -> Meaning {
        MEANINGS[row.punches as usize][((row.modulation >> (2 * i)) % 4) as usize]
    }

    ghost half_is = { refl };
}
