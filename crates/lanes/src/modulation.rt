// What differs with the depth: how wide a block is, and what its word's modulation says of its texels.
ghost use Rattle.std.specs.Prelude.{Bool, List, ℕ, ◌≡◌, ◌+◌, ◌*◌, ◌<◌, ◌≤◌, length};
ghost use Rattle.grid.specs.Grid.{half};
ghost use Rattle.word.specs.Word.{mode};
ghost use Rattle.lanes.specs.declared.Meaning.{Meaning};
ghost use Rattle.lanes.specs.Block.{Said, Middle};
ghost use Rattle.lanes.specs.BlockRow.{InData};
ghost use Rattle.lanes.specs.Column.{word_at};
ghost use Rattle.lanes.specs.Lanes.{Mask};

use crate::{Addresses, Meaning};

// All of a texel.
pub const KEPT: u64 = 0x00ff00ff00ff00ff;

// Codes at 4bpp and weights at 2bpp. Either is proved to say of each texel what the definition says (`fill`), and one walk lays both.
pub trait Modulation: Copy {
    // What is read of one row of the four.
    type Row: Copy;

    // Half a block's width.
    const HALF: usize;

    ghost HALF: { ℕ };

    ghost two: { Bool };

    // What is read of the bytes from a word on.
    ghost stored: { List ℕ → Self };

    // What filling may count on.
    ghost Good: { Self → Type 0 };

    ghost row_of: { Self → ℕ → Self.Row };

    ghost says: { Self.Row → ℕ → Meaning };

    fn read(d: &[u8], z: usize) -> Self
        requires { 8 * z + 8 ≤ length d.now }
        ensures { (result ≡ stored (word_at d.now z)) × Good result };

    // The middle one of nine words' blocks, whose column's words stand there, filled: it says what the definition says.
    fn fill(left: Self, own: Self, right: Self, d: &[u8], at: Addresses) -> Self
        requires { Good left × Good own × Good right × InData at (length d.now) }
        ensures { (of : ℕ → ℕ → List ℕ) → left ≡ stored (of 0 1) → own ≡ stored (of 1 1) → right ≡ stored (of 2 1)
            → Middle of d.now at → Said two of (λ y. says (row_of result y)) };

    fn row(self, j: usize) -> Self::Row
        requires { j < 4 }
        ensures { result ≡ row_of self j };

    // Of texel i of a row.
    fn meaning(row: Self::Row, i: usize) -> Meaning
        requires { i < 2 * HALF }
        ensures { (result ≡ says row i) × (result.weight ≤ 15) × Mask result.keep };

    ghost half_is: { HALF ≡ half two };
}

// Whether the mode of word z is 1. Its address stands alone in the contracts: a struct of it and the bytes would be made anew for each word.
pub fn mode_at(d: &[u8], z: usize) -> bool
    requires { 8 * z + 8 ≤ length d.now }
    ensures { result ≡ mode (word_at d.now z) }
{
    d[8 * z + 4] % 2 == 1
}
