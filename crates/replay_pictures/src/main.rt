// Prints what the calls that write into lent words answer, with a sum over every lent word afterwards: pictures of many shapes, all rows
// of some, and calls on both sides of each refusal; each blue first and then red first. What it must print, in the file `stdout`, was
// written by the Rust. What prints is one module, since what a function prints is nothing that it could promise.
#![tactic(auto)]

mod tables;

use listing::{Case, ORDERS, Shape};
use pvrtc::{Picture, Refusal};
use std::fmt::Display;
use std::io;
use std::io::Write;

// The lines of one call: blue first, and then red first on the same words as they were before. Each has the call's name, what it gets, its
// answer, and the sum over the lent words afterwards. As in all of these, what is returned is the generator's state afterwards.
fn print_call<F: Fn(&[u8], Picture, &mut [u32]) -> Result<(), Refusal>>(
    out: &mut impl Write,
    case: Case,
    name: impl Display + Drop,
    decode: F,
) -> io::Result<u64>
    requires { F.IsAlwaysCallable decode }
{
    let (bytes, words) = (case.data.len(), case.words);
    for order in ORDERS {
        let picture = pvrtc::in_order(case.picture, order);
        let answer = Case { picture, ..case }.answer(&decode);
        let shape = Shape(picture);
        writeln!(
            out,
            "{name} {shape}, {bytes} bytes, {words} words: {answer}"
        )?;
    }
    Ok(case.state_after())
}

// The call that is told the depth, and the plain form.
fn print_both(out: &mut impl Write, case: Case) -> io::Result<u64> {
    print_call(out, case, "picture", listing::decode_told)?;
    print_call(out, case, "plain", listing::decode_plain)
}

// The call for row y.
fn print_row(out: &mut impl Write, case: Case, y: usize) -> io::Result<u64> {
    print_call(
        out,
        case,
        format_args!("row {y} of"),
        |data, picture, row| pvrtc::decode_row(data, picture, y, row),
    )
}

// The pictures, then the rows, for which the generator runs on; then the calls at each depth.
fn main(rt: HostRuntime) -> io::Result<()> {
    let mut out = io::writer(&rt);
    let shapes = print_shapes(&mut out, 1)?;
    let rows = print_rows(&mut out, &tables::ROWS_4BPP, false, shapes)?;
    print_rows(&mut out, &tables::ROWS_2BPP, true, rows)?;
    print_calls(&mut out, false)?;
    print_calls(&mut out, true)?;
    out.flush()
}

// Pictures of many shapes at both depths.
fn print_shapes(out: &mut impl Write, state: u64) -> io::Result<u64> {
    let mut reached = state;
    reached = print_sides(out, false, reached)?;
    reached = print_sides(out, true, reached)?;
    reached = print_pictures(out, &tables::NARROW_4BPP, false, reached)?;
    reached = print_pictures(out, &tables::NARROW_2BPP, true, reached)?;
    reached = print_pictures(out, &tables::LARGE_4BPP, false, reached)?;
    reached = print_pictures(out, &tables::LARGE_2BPP, true, reached)?;
    reached = print_named(out, &tables::NAMED_4BPP, false, reached)?;
    print_named(out, &tables::NAMED_2BPP, true, reached)
}

// Sides of 1 to 8, each width with each height.
fn print_sides(out: &mut impl Write, is2bpp: bool, state: u64) -> io::Result<u64> {
    let mut reached = state;
    for height in 1..9 {
        for width in 1..9 {
            let mut room = [0; 2048];
            let case = whole((width, height), is2bpp, &mut room, reached);
            reached = print_both(out, case)?;
        }
    }
    Ok(reached)
}

// Pictures of the listed sizes.
fn print_pictures(
    out: &mut impl Write,
    sizes: &[(usize, usize)],
    is2bpp: bool,
    state: u64,
) -> io::Result<u64> {
    let mut reached = state;
    for size in sizes {
        let mut room = [0; 2048];
        let case = whole(*size, is2bpp, &mut room, reached);
        reached = print_both(out, case)?;
    }
    Ok(reached)
}

// The same, also by the call that has the depth in its name.
fn print_named(
    out: &mut impl Write,
    sizes: &[(usize, usize)],
    is2bpp: bool,
    state: u64,
) -> io::Result<u64> {
    let mut reached = state;
    for size in sizes {
        let mut room = [0; 2048];
        let case = whole(*size, is2bpp, &mut room, reached);
        print_both(out, case)?;
        reached = print_call(out, case, "named", listing::decode_named)?;
    }
    Ok(reached)
}

// A picture with drawn data, as long as it needs, and so many words and nine more.
fn drawn(picture: Picture, words: usize, room: &mut [u8], state: u64) -> Case<'_> {
    let need = listing::need_of(picture).min(room.len());
    let data = &mut room[..need];
    let state = samples::draw_bytes(data, state);
    Case {
        picture,
        data,
        words: words.saturating_add(9),
        state,
    }
}

// All of a picture with drawn data.
fn whole((width, height): (usize, usize), is2bpp: bool, room: &mut [u8], state: u64) -> Case<'_> {
    let picture = listing::blue_first(width, height, is2bpp);
    drawn(picture, width.saturating_mul(height), room, state)
}

// All rows of pictures of the listed sizes.
fn print_rows(
    out: &mut impl Write,
    sizes: &[(usize, usize)],
    is2bpp: bool,
    state: u64,
) -> io::Result<u64> {
    let mut reached = state;
    for (width, height) in sizes {
        let mut room = [0; 256];
        let picture = listing::blue_first(*width, *height, is2bpp);
        let case = drawn(picture, *width, &mut room, reached);
        reached = case.state;
        for y in 0..*height {
            let case = Case {
                state: reached,
                ..case
            };
            reached = print_row(out, case, y)?;
        }
    }
    Ok(reached)
}

// The calls at one depth. All get the same bytes and words, as far as they reach, so that the same picture has the same sum.
fn print_calls(out: &mut impl Write, is2bpp: bool) -> io::Result<()> {
    let mut data = [0; 262144];
    samples::draw_bytes(&mut data, 1);
    print_listed_calls(out, &data, is2bpp)
}

// The listed calls on these bytes. Sides of 1 to 18 stand between them, across and down: up to five blocks one way, and one the other.
fn print_listed_calls(out: &mut impl Write, data: &[u8], is2bpp: bool) -> io::Result<()> {
    print_picture_calls(out, &tables::PICTURE_CALLS, data, is2bpp)?;
    for side in 1..19 {
        print_both(
            out,
            listed(data, 96, 80, listing::blue_first(side, 4, is2bpp)),
        )?;
        print_both(
            out,
            listed(data, 96, 80, listing::blue_first(4, side, is2bpp)),
        )?;
    }
    print_row_calls(out, &tables::ROW_CALLS, data, is2bpp)?;
    print_picture_calls(out, &tables::TALL_PICTURE_CALLS, data, is2bpp)
}

// The listed picture calls.
fn print_picture_calls(
    out: &mut impl Write,
    calls: &[[usize; 5]],
    data: &[u8],
    is2bpp: bool,
) -> io::Result<()> {
    for [bytes, words, at4bpp, at2bpp, height] in calls {
        let width = if is2bpp { *at2bpp } else { *at4bpp };
        let picture = listing::blue_first(width, *height, is2bpp);
        print_both(out, listed(data, *bytes, *words, picture))?;
    }
    Ok(())
}

// The listed row calls.
fn print_row_calls(
    out: &mut impl Write,
    calls: &[[usize; 6]],
    data: &[u8],
    is2bpp: bool,
) -> io::Result<()> {
    for [bytes, words, at4bpp, at2bpp, height, y] in calls {
        let width = if is2bpp { *at2bpp } else { *at4bpp };
        let picture = listing::blue_first(width, *height, is2bpp);
        print_row(out, listed(data, *bytes, *words, picture), *y)?;
    }
    Ok(())
}

// A listed call's case: the first so many bytes of the data, as far as they reach.
fn listed(data: &[u8], bytes: usize, words: usize, picture: Picture) -> Case<'_> {
    Case {
        picture,
        data: listing::first(data, bytes),
        words,
        state: 2,
    }
}
