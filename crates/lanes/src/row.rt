// A row of blocks, at either depth.
ghost use Rattle.std.specs.Prelude.{◌≡◌, ◌+◌, ◌*◌, ◌<◌, ◌≤◌, length};
ghost use Rattle.grid.specs.Grid.{log2, address, Placed};
ghost use Rattle.paint.specs.Paint.{painted};
ghost use Rattle.paint.specs.Sheet.{on_sheet, Fits};
ghost use Rattle.lanes.specs.Block.{in_row, in_block, block_of};
ghost use Rattle.lanes.specs.BlockRow.{column_words, InData, Ready, with_block_row};
ghost use Rattle.lanes.specs.Column.{SmallColumn, SmallSums};

use crate::colors::{fit, mix, summed};
use crate::modulation::Modulation;
use crate::places::{next_column, part_across, row_addresses};
use crate::{Addresses, Block, Column, RowAddresses, Sums};
use grid::Grid;
use paint::Sheet;
use pixel::ChannelOrder;

// The first `columns` texels of a row, laid from word `at` on.
fn lay_row<M: Modulation>(
    a: Sums,
    b: Sums,
    row: M::Row,
    columns: usize,
    at: usize,
    image: &mut [u32],
)
    requires small_sums { SmallSums a × SmallSums b }
    requires columns_bound { (columns ≤ 2 * M.HALF) × (at + columns ≤ length image.old) }
    ensures { image.new ≡ painted at columns columns 1 (λ x y. in_row M.HALF (M.says row) a b x) image.old }
{
    let h = M::HALF;
    let mut sum_a = a.first(h);
    let mut sum_b = b.first(h);
    // All places of a block, also those past the sheet. A loop over the sheet's alone, as an iterator over their words would be, takes 13 in 100
    // more instructions at 4bpp, and 8 at 2bpp.
    for i in 0..2 * h {
        let meaning = M::meaning(row, i);
        let fit_a = fit(h as u64, sum_a);
        let fit_b = fit(h as u64, sum_b);
        let texel = mix(fit_a, fit_b, meaning.weight, meaning.keep);
        if i < columns {
            image[at + i] = texel;
        }
        sum_a = a.step(h, i, sum_a);
        sum_b = b.step(h, i, sum_b);
    }
}

// The block of the middle one of three columns, laid on its part of a sheet.
fn lay_block<M: Modulation>(
    left: Column,
    own: Column,
    right: Column,
    said: M,
    part: Sheet,
    image: &mut [u32],
)
    requires small_column { SmallColumn left × SmallColumn own × SmallColumn right }
    requires fits { Fits part (length image.old) × (part.width ≤ 2 * M.HALF) × (part.height ≤ 4) }
    ensures { image.new ≡ on_sheet part (in_block M.HALF (λ y. M.says (M.row_of said y)) left own right) image.old }
{
    // j is the row of seven things here, and no slice has one of each.
    for j in 0..part.height {
        let a = Sums {
            left: left.a[j],
            own: own.a[j],
            right: right.a[j],
        };
        let b = Sums {
            left: left.b[j],
            own: own.b[j],
            right: right.b[j],
        };
        let at = part.start + j * part.stride;
        lay_row::<M>(a, b, said.row(j), part.width, at, image);
    }
}

// Column x of a row. As a call it would copy each block out, which takes 3 in 100 more instructions at 2bpp.
#[inline(always)]
fn block_at<M: Modulation>(
    data: &[u8],
    row: RowAddresses,
    x: usize,
    order: ChannelOrder,
) -> Block<M>
    requires placed { Placed row.smaller x 0 }
    requires in_data { InData (column_words row (address (log2 row.smaller) x 0)) (length «data».now) }
    ensures is { result ≡ block_of M.stored order «data».now (column_words row (address (log2 row.smaller) x 0)) }
    ensures good { SmallColumn result.column × M.Good result.said }
{
    let part = part_across(x, row.smaller);
    let at = Addresses {
        above: part + row.above,
        own: part + row.own,
        below: part + row.below,
    };
    Block {
        at,
        column: summed(data, at, order),
        said: M::read(data, at.own),
    }
}

// Row `by` of a grid's blocks, laid on its sheet: as many blocks as cover it.
pub fn decode_row<M: Modulation>(
    data: &[u8],
    g: Grid,
    by: usize,
    order: ChannelOrder,
    row: Sheet,
    image: &mut [u32],
)
    requires { Ready g by row (length «data».now) (length image.old) × (g.is2bpp ≡ M.two) }
    ensures { image.new ≡ with_block_row order g by row «data».now image.old }
{
    let width = 2 * M::HALF;
    let addresses = row_addresses(g, by);
    let mut left = block_at::<M>(data, addresses, g.across - 1, order);
    let mut own = block_at::<M>(data, addresses, 0, order);
    // bx is a place on the torus: the column after it and its part of the sheet are made of it.
    for bx in 0..grid::num_blocks_x(row.width, g.is2bpp) {
        let next = next_column(bx, g.across);
        let right = block_at::<M>(data, addresses, next, order);
        let said = M::fill(left.said, own.said, right.said, data, own.at);
        let sheet = paint::columns_from(row, bx * width, width);
        lay_block(left.column, own.column, right.column, said, sheet, image);
        left = own;
        own = right;
    }
}
