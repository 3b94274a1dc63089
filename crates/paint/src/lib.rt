// Words laid into lent words: sheets and their rows and columns, and a block's buffer laid on one.
#![tactic(auto)]

ghost use Rattle.std.specs.Prelude.{◌≡◌, ◌+◌, ◌*◌, ◌≤◌, ◌<◌, length, get_or};
ghost use Rattle.paint.specs.Paint.{painted};
ghost use Rattle.paint.specs.Sheet.{on_sheet, rows_from, columns_from, Fits, largest};

// Where texels go among lent words: texel (x, y) to word start + y * stride + x, for x below the width and y below the height.
#[derive(Clone, Copy)]
pub struct Sheet {
    pub start: usize,
    pub stride: usize,
    pub width: usize,
    pub height: usize,
}

// The rows of a sheet from y on, `count` of them or as many as there are.
pub fn rows_from(s: Sheet, y: usize, count: usize) -> Sheet
    requires { Fits s largest × (y < s.height) }
    ensures { result ≡ rows_from s y count }
{
    Sheet {
        start: s.start + y * s.stride,
        height: count.min(s.height - y),
        ..s
    }
}

// The columns of a sheet from x on, `count` of them or as many as there are.
pub fn columns_from(s: Sheet, x: usize, count: usize) -> Sheet
    requires { Fits s largest × (x < s.width) }
    ensures { result ≡ columns_from s x count }
{
    Sheet {
        start: s.start + x,
        width: count.min(s.width - x),
        ..s
    }
}

// Lays a block's words, in rows of bw, on its part of a sheet, as many rows and columns as that has.
pub fn copy_block_buffer(buffer: &[u32; 32], bw: usize, part: Sheet, image: &mut [u32])
    requires { Fits part (length image.old) × (part.width ≤ bw) × (part.height * bw ≤ 32) }
    ensures { image.new ≡ on_sheet part (λ x y. get_or buffer.now (y * bw + x) 0) image.old }
{
    // j is a row of the buffer and one of the sheet, whose rows lie apart.
    for j in 0..part.height {
        let from = j * bw;
        let to = part.start + j * part.stride;
        image[to..to + part.width].copy_from_slice(&buffer[from..from + part.width]);
    }
}
