// Prints what the texel call answers: chosen texels of 270 pictures, then calls on both sides of each refusal; each blue first and then
// red first. What it must print, in the file `stdout`, was written by the Rust. It is one module, since what a function prints is nothing
// that it could promise.
#![tactic(auto)]

mod tables;

use facts::Numbered;
use listing::{ORDERS, Shape};
use pvrtc::{Picture, Refusal};
use std::io::Write;
use std::{fmt, io};
use tables::Kind;

// A picture, and the data that is lent for it.
#[derive(Clone, Copy)]
struct Lent<'a> {
    picture: Picture,
    data: &'a [u8],
}

// The answer of one texel call: a word as eight hexadecimal digits, or the number of the refusal.
#[derive(Clone, Copy)]
struct Answer(Result<u32, Refusal>);

impl Lent<'_> {
    fn texel(self, x: usize, y: usize) -> Answer {
        Answer(pvrtc::decode_texel(self.data, self.picture, x, y))
    }
}

impl fmt::Display for Answer {
    fn fmt<W: fmt::Write>(&self, f: &mut fmt::Formatter<W>) -> fmt::Result {
        match self.0 {
            Ok(word) => write!(f, "{word:08x}"),
            Err(refusal) => write!(f, "refused {}", refusal.number()),
        }
    }
}

// The pictures, for which the generator is never set back, then the calls.
fn main(rt: HostRuntime) -> io::Result<()> {
    let mut out = io::writer(&rt);
    let reached = print_sizes(&mut out, &tables::SIZES_4BPP, false, 1)?;
    print_sizes(&mut out, &tables::SIZES_2BPP, true, reached)?;
    print_calls(&mut out, false)?;
    print_calls(&mut out, true)?;
    out.flush()
}

// Pictures of the listed sizes, with words of each kind. As in all of these, the answer is the generator's state afterwards.
fn print_sizes(
    out: &mut impl Write,
    sizes: &[(usize, usize)],
    is2bpp: bool,
    state: u64,
) -> io::Result<u64> {
    let mut reached = state;
    for (width, height) in sizes {
        for kind in &tables::KINDS {
            reached = print_picture(
                out,
                listing::blue_first(*width, *height, is2bpp),
                kind,
                reached,
            )?;
        }
    }
    Ok(reached)
}

// One picture's texels at the chosen places, after its data is drawn and its words are made of a kind: in each order.
fn print_picture(
    out: &mut impl Write,
    picture: Picture,
    kind: &Kind,
    state: u64,
) -> io::Result<u64> {
    let mut room = [0; 2048];
    let need = listing::need_of(picture).min(2048);
    let data = &mut room[..need];
    let reached = samples::draw_bytes(data, state);
    make(kind, data);
    for order in ORDERS {
        let picture = pvrtc::in_order(picture, order);
        print_places(out, Lent { picture, data }, kind.name)?;
    }
    Ok(reached)
}

// Makes each word one of the kind.
fn make(kind: &Kind, data: &mut [u8]) {
    let (words, _) = data.as_chunks_mut::<8>();
    for word in words {
        let drawn = u64::from_le_bytes(*word);
        *word = (drawn & !kind.decided | kind.set).to_le_bytes();
    }
}

// A picture's title, and the texels at its chosen places: the corners, the middle of each margin, the centre, and the rows of the block
// that holds the centre.
fn print_places(out: &mut impl Write, lent: Lent, kind: &str) -> io::Result<()> {
    let p = lent.picture;
    let (right, below) = (p.width.saturating_sub(1), p.height.saturating_sub(1));
    let (x, y) = (p.width / 2, p.height / 2);
    writeln!(out, "picture {}, {kind}", Shape(p))?;
    writeln!(
        out,
        "corners {} {} {} {}",
        lent.texel(0, 0),
        lent.texel(right, 0),
        lent.texel(0, below),
        lent.texel(right, below)
    )?;
    writeln!(
        out,
        "margins {} {} {} {}",
        lent.texel(0, y),
        lent.texel(right, y),
        lent.texel(x, 0),
        lent.texel(x, below)
    )?;
    writeln!(out, "centre {}", lent.texel(x, y))?;
    print_block(out, lent)
}

// The rows of the block that holds the centre, as far as they lie in the picture.
fn print_block(out: &mut impl Write, lent: Lent) -> io::Result<()> {
    let p = lent.picture;
    let across = grid::block_width(p.is2bpp);
    let (left, top) = (p.width / 2 / across * across, p.height / 8 * 4);
    for y in top..p.height.min(top + 4) {
        write!(out, "block")?;
        for x in left..p.width.min(left + across) {
            write!(out, " {}", lent.texel(x, y))?;
        }
        writeln!(out)?;
    }
    Ok(())
}

// The calls at one depth, all on the same bytes, as far as they reach: what each refusal is given for, what it goes before, and what is
// just not refused.
fn print_calls(out: &mut impl Write, is2bpp: bool) -> io::Result<()> {
    let mut data = [0; 96];
    samples::draw_bytes(&mut data, 1);
    print_listed(out, &tables::SIDES_AND_DATA, is2bpp, &data)?;
    // The data of four blocks is short, and the texel lies outside.
    let width = if is2bpp { 16 } else { 8 };
    print_call(
        out,
        listing::blue_first(width, 8, is2bpp),
        listing::first(&data, 31),
        width,
        8,
    )?;
    // Up to nine blocks across, and one down; then down, and one across.
    for width in 1..34 {
        print_call(out, listing::blue_first(width, 4, is2bpp), &data, 0, 0)?;
    }
    for height in 1..34 {
        print_call(out, listing::blue_first(4, height, is2bpp), &data, 0, 0)?;
    }
    print_listed(out, &tables::OUTSIDE, is2bpp, &data)
}

// The listed calls.
fn print_listed(
    out: &mut impl Write,
    calls: &[[usize; 6]],
    is2bpp: bool,
    data: &[u8],
) -> io::Result<()> {
    for [bytes, at4bpp, at2bpp, height, x, y] in calls {
        let width = if is2bpp { *at2bpp } else { *at4bpp };
        print_call(
            out,
            listing::blue_first(width, *height, is2bpp),
            listing::first(data, *bytes),
            *x,
            *y,
        )?;
    }
    Ok(())
}

// One call, and its answer: in each order.
fn print_call(
    out: &mut impl Write,
    picture: Picture,
    data: &[u8],
    x: usize,
    y: usize,
) -> io::Result<()> {
    for order in ORDERS {
        let picture = pvrtc::in_order(picture, order);
        let answer = Lent { picture, data }.texel(x, y);
        let (shape, bytes) = (Shape(picture), data.len());
        writeln!(out, "call {shape}, {bytes} bytes, texel {x} {y}: {answer}")?;
    }
    Ok(())
}
