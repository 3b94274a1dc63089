// Where the words of a row of blocks stand.
ghost use Rattle.std.specs.Prelude.{◌≡◌, ◌+◌, ◌*◌, ◌<◌, length};
ghost use Rattle.grid.specs.Grid.{log2, address, beside, spread_bits, Placed};
ghost use Rattle.grid.specs.Words.{word_bytes, Stands};
ghost use Rattle.lanes.specs.BlockRow.{addresses_of};

use crate::RowAddresses;
use grid::Grid;

// The eight bits of b, bit i moved to bit 2i. `grid` has this by its table: docs/DECISIONS.md, "What the fast path replaces", says why not here.
fn spread_byte(b: usize) -> usize
    requires { b < 256 }
    ensures { result ≡ spread_bits 8 b }
{
    let c = (b | b * 16) & 0x0f0f;
    let e = (c | c * 4) & 0x3333;
    (e | e * 2) & 0x5555
}

// The same of sixteen.
fn spread(v: usize) -> usize
    requires { v < 65536 }
    ensures { result ≡ spread_bits 16 v }
{
    spread_byte(v % 256) + spread_byte(v / 256) * 65536
}

// What column x of a grid with this smaller side adds to an address.
pub fn part_across(x: usize, smaller: usize) -> usize
    requires { Placed smaller x 0 }
    ensures { result ≡ address (log2 smaller) x 0 }
{
    let low = x & (smaller - 1);
    (x - low) * smaller + spread(low) * 2
}

// The column after column x, round the torus: as grid::next_block, by a comparison for a remainder, which is slow at every block.
pub fn next_column(x: usize, across: usize) -> usize
    requires { x < across }
    ensures { result ≡ beside across x 2 }
{
    if x + 1 < across { x + 1 } else { 0 }
}

// What row `by` of a grid's blocks, and the rows above and below it, add to an address.
pub fn row_addresses(g: Grid, by: usize) -> RowAddresses
    requires { Stands g (word_bytes g) × (by < g.down) }
    ensures { result ≡ addresses_of g by }
{
    let smaller = g.smaller();
    RowAddresses {
        smaller,
        above: grid::morton_index_by_table(0, grid::previous_block(by, g.down), smaller),
        own: grid::morton_index_by_table(0, by, smaller),
        below: grid::morton_index_by_table(0, grid::next_block(by, g.down), smaller),
    }
}
