// Prints what the calls answer in both modes of a picture's grid, each blue first and then red first: every size of 1 to 20 by 1 to 20 texels, each way
// to its words; the red corner; one colour; and calls on both sides of what each grid needs. What it must print, in the file `stdout`, was written by
// tools/replay_modes, and the Rust wrote the same. It is one module, since what a function prints is nothing that it could promise.
#![tactic(auto)]

mod tables;

use facts::Numbered;
use listing::{Case, Depth, MODES, Mode, ORDERS, Order};
use pixel::ChannelOrder;
use pvrtc::{GridMode, Picture, Refusal};
use std::io::Write;
use std::{fmt, io};

// A case's name: the depth, the mode, the size, the order and how many bytes are lent.
#[derive(Clone, Copy)]
struct Name<'a>(Case<'a>);

// Whether another way answers the same, on the same bytes and words.
#[derive(Clone, Copy)]
struct Same(bool);

// A listed call: how many bytes and words are lent, the sides, and the column and the row that are asked for.
#[derive(Clone, Copy)]
struct Call {
    bytes: usize,
    words: usize,
    width: usize,
    height: usize,
    x: usize,
    y: usize,
}

impl fmt::Display for Name<'_> {
    fn fmt<W: fmt::Write>(&self, f: &mut fmt::Formatter<W>) -> fmt::Result {
        let p = self.0.picture;
        let (depth, mode, order) = (Depth(p.is2bpp), Mode(p.mode), Order(p.order));
        let (width, height, bytes) = (p.width, p.height, self.0.data.len());
        write!(f, "{depth} {mode} {width} x {height}{order}, bytes {bytes}")
    }
}

impl fmt::Display for Same {
    fn fmt<W: fmt::Write>(&self, f: &mut fmt::Formatter<W>) -> fmt::Result {
        f.write_str(if self.0 { "same" } else { "differs" })
    }
}

// A row of `NEEDS`: a call for the last row and texel, with as many words as there are.
impl From<(usize, usize, usize)> for Call {
    fn from((bytes, width, height): (usize, usize, usize)) -> Call {
        Call {
            bytes,
            words: 4105,
            width,
            height,
            x: width.saturating_sub(1),
            y: height.saturating_sub(1),
        }
    }
}

// A row of `OTHERS`.
impl From<[usize; 6]> for Call {
    fn from([bytes, words, width, height, x, y]: [usize; 6]) -> Call {
        Call {
            bytes,
            words,
            width,
            height,
            x,
            y,
        }
    }
}

fn main(rt: HostRuntime) -> io::Result<()> {
    let mut out = io::writer(&rt);
    print_sizes(&mut out)?;
    print_red_corners(&mut out)?;
    print_one_colour(&mut out)?;
    print_calls(&mut out)?;
    out.flush()
}

// Each width with each height at both depths, for which the generator runs on; each in both modes and both orders, on the same data and words: the
// same picture in the same order has the same sum.
fn print_sizes(out: &mut impl Write) -> io::Result<()> {
    let mut state = 1;
    for is2bpp in [false, true] {
        for height in 1..21 {
            for width in 1..21 {
                let mut data = [0; 200];
                state = samples::draw_bytes(&mut data, state);
                for mode in MODES {
                    for order in ORDERS {
                        let picture = pvrtc::picture_of(width, height, is2bpp, mode, order);
                        print_picture(out, picture, &data, state)?;
                    }
                }
            }
        }
    }
    Ok(())
}

// A picture each way, with as many bytes as it needs: the call that is told the depth, that with the depth in its name, the plain form, the row call for
// each row, the texel call for each texel. Then the first with a byte less.
fn print_picture(
    out: &mut impl Write,
    picture: Picture,
    data: &[u8],
    state: u64,
) -> io::Result<()> {
    let data = listing::first(data, listing::need_of(picture));
    let case = Case {
        picture,
        data,
        words: 409,
        state,
    };
    let short = Case {
        data: listing::first(data, data.len().saturating_sub(1)),
        ..case
    };
    let told = case.answer(listing::decode_told);
    let named = Same(case.answer(listing::decode_named) == told);
    let plain = Same(case.answer(listing::decode_plain) == told);
    let rows = Same(case.answer(decode_rows) == told);
    let texels = Same(case.answer(decode_texels) == told);
    let less = short.answer(listing::decode_told).number;
    writeln!(
        out,
        "{}: {told}; named {named}, plain {plain}, rows {rows}, texels {texels}; a byte less: {less}",
        Name(case)
    )
}

fn decode_rows(data: &[u8], p: Picture, words: &mut [u32]) -> Result<(), Refusal> {
    each_row(p, words, |y, row| pvrtc::decode_row(data, p, y, row))
}

fn decode_texels(data: &[u8], p: Picture, words: &mut [u32]) -> Result<(), Refusal> {
    each_row(p, words, |y, row| decode_texels_of(data, p, y, row))
}

// Each row into its place of the words, up to the first that is refused.
fn each_row<F: Fn(usize, &mut [u32]) -> Result<(), Refusal>>(
    p: Picture,
    words: &mut [u32],
    decode: F,
) -> Result<(), Refusal>
    requires { F.IsAlwaysCallable decode }
{
    for y in 0..p.height {
        let at = y.saturating_mul(p.width).min(words.len());
        decode(y, &mut words[at..])?;
    }
    Ok(())
}

// The texels of row y, up to the first that is refused.
fn decode_texels_of(data: &[u8], p: Picture, y: usize, row: &mut [u32]) -> Result<(), Refusal> {
    for (x, word) in row.iter_mut().take(p.width).enumerate() {
        *word = pvrtc::decode_texel(data, p, x, y)?;
    }
    Ok(())
}

// The reds of the first row of the red corner.
fn print_red_corners(out: &mut impl Write) -> io::Result<()> {
    let mut data = [0; 32];
    samples::lay_file(&tables::RED_CORNER, &mut data);
    for mode in MODES {
        for order in ORDERS {
            let mut words = [0; 16];
            let _ = pvrtc::decode_pvrtc_4bpp(&data, 4, 4, &mut words, mode, order);
            write!(out, "red corner, {}{}:", Mode(mode), Order(order))?;
            for word in &words[..4] {
                write!(out, " {}", red_of(*word, order))?;
            }
            writeln!(out)?;
        }
    }
    Ok(())
}

fn red_of(word: u32, order: ChannelOrder) -> u8 {
    let [first, _, third, _] = word.to_le_bytes();
    match order {
        ChannelOrder::BlueFirst => third,
        ChannelOrder::RedFirst => first,
    }
}

// The texel of one colour, byte by byte from the low one.
fn print_one_colour(out: &mut impl Write) -> io::Result<()> {
    let mut data = [0; 8];
    samples::lay_file(&tables::ONE_COLOUR, &mut data);
    for is2bpp in [false, true] {
        for order in ORDERS {
            let picture = pvrtc::picture_of(1, 1, is2bpp, GridMode::Rust, order);
            let mut words = [0];
            let _ = listing::decode_told(&data, picture, &mut words);
            let name = Name(Case {
                picture,
                data: &data,
                words: 1,
                state: 1,
            });
            let [first, second, third, fourth] = words[0].to_le_bytes();
            writeln!(out, "one colour, {name}: {first} {second} {third} {fourth}")?;
        }
    }
    Ok(())
}

// The listed calls. All get the same bytes and words, as far as they reach.
fn print_calls(out: &mut impl Write) -> io::Result<()> {
    let mut data = [0; 262144];
    samples::draw_bytes(&mut data, 1);
    print_listed(out, &data)
}

fn print_listed(out: &mut impl Write, data: &[u8]) -> io::Result<()> {
    for row in &tables::NEEDS {
        print_call(out, Call::from(*row), data)?;
    }
    for row in &tables::OTHERS {
        print_call(out, Call::from(*row), data)?;
    }
    Ok(())
}

// A listed call at both depths, in both modes and in both orders.
fn print_call(out: &mut impl Write, call: Call, data: &[u8]) -> io::Result<()> {
    let data = listing::first(data, call.bytes);
    for is2bpp in [false, true] {
        for mode in MODES {
            for order in ORDERS {
                let picture = pvrtc::picture_of(call.width, call.height, is2bpp, mode, order);
                print_answers(
                    out,
                    Case {
                        picture,
                        data,
                        words: call.words,
                        state: 2,
                    },
                    call.x,
                    call.y,
                )?;
            }
        }
    }
    Ok(())
}

// The picture by the block call and by its other forms; then row y, and texel (x, y).
fn print_answers(out: &mut impl Write, case: Case, x: usize, y: usize) -> io::Result<()> {
    let (name, words) = (Name(case), case.words);
    let told = case.answer(listing::decode_told);
    let named = Same(case.answer(listing::decode_named) == told);
    let plain = Same(case.answer(listing::decode_plain) == told);
    let row = case.answer(|data, picture, row| pvrtc::decode_row(data, picture, y, row));
    write!(
        out,
        "call {name}, words {words}: {told}; named {named}, plain {plain}; row {y}: {row}; texel {x}: "
    )?;
    match pvrtc::decode_texel(case.data, case.picture, x, y) {
        Ok(word) => writeln!(out, "word {word}"),
        Err(f) => writeln!(out, "refused {}", f.number()),
    }
}
