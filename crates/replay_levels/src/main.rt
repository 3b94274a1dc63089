// Prints what the calls of a level answer for some hundred files of both kinds, each level by itself; and in a line of its own, what decoding
// the level red first answers. What it must print, in the file `stdout`, was written by tools/replay_levels. It is one module, since what a
// function prints is nothing that it could promise.
#![tactic(auto)]

mod tables;

use convert::{IMAGE_WORDS, OUT_BYTES};
use facts::Numbered;
use levels::{Level, Refusal};
use listing::Depth;
use pixel::ChannelOrder;
use replayed::Fault;
use std::io::Write;
use std::{fmt, io};

// A file's kind.
#[derive(Clone, Copy, PartialEq, Eq)]
enum Kind {
    Pvr,
    Ktx,
}

// A size word of a KTX file that is another than its level's.
#[derive(Clone, Copy)]
struct Wrong {
    level: u32,
    word: u32,
}

// What is chosen of a file: its kind and depth, the sides, how many levels the header says, how many bytes are skipped before them, and a wrong
// size word.
#[derive(Clone, Copy)]
struct Case {
    kind: Kind,
    is2bpp: bool,
    width: u32,
    height: u32,
    levels: u32,
    skipped: u32,
    wrong: Option<Wrong>,
}

// What describing a level answers.
#[derive(Clone, Copy)]
struct Described(Result<Level, Refusal>);

// Files of which the level call and the program, or the KTX header's reader, say different things; and the same of the other kind: the kind, the
// sides, how many levels the header says, and where the file ends.
static DIFFERING: [(Kind, u32, u32, u32, usize); 4] = [
    (Kind::Ktx, 0, 8, 1, 64),
    (Kind::Pvr, 0, 8, 1, 52),
    (Kind::Pvr, 5, 5, 9, 6000),
    (Kind::Ktx, 5, 5, 9, 6000),
];

// Nothing beside a PVR file's flags, a wrong first byte before them, a wrong format after them, and both.
static BESIDE_FLAGS: [&[Fault]; 4] = [
    &[],
    &[Fault::NotPvr],
    &[Fault::UnknownPvrFormat],
    &[Fault::NotPvr, Fault::UnknownPvrFormat],
];

impl fmt::Display for Kind {
    fn fmt<W: fmt::Write>(&self, f: &mut fmt::Formatter<W>) -> fmt::Result {
        f.write_str(match self {
            Kind::Pvr => "pvr",
            Kind::Ktx => "ktx",
        })
    }
}

// What is chosen of a file, in words.
impl fmt::Display for Case {
    fn fmt<W: fmt::Write>(&self, f: &mut fmt::Formatter<W>) -> fmt::Result {
        let (kind, depth, width, height) = (self.kind, Depth(self.is2bpp), self.width, self.height);
        let (levels, skipped) = (self.levels, self.skipped);
        write!(
            f,
            "{kind} {depth} {width} x {height}, levels {levels}, skipped {skipped}"
        )?;
        if let Some(Wrong { level, word }) = self.wrong {
            write!(f, ", word {level} is {word}")?;
        }
        Ok(())
    }
}

impl fmt::Display for Described {
    fn fmt<W: fmt::Write>(&self, f: &mut fmt::Formatter<W>) -> fmt::Result {
        match self.0 {
            Ok(level) => {
                let (width, height, depth) = (level.width, level.height, Depth(level.is2bpp));
                let (need, start) = (level.need, level.start);
                write!(f, "{width} x {height}, {depth}, {need} bytes at {start}")
            }
            Err(refusal) => write!(f, "refused {}", refusal.number()),
        }
    }
}

fn main(rt: HostRuntime) -> io::Result<()> {
    let mut out = io::writer(&rt);
    let mut bytes = [0; 6000];
    print_all(&mut out, &mut bytes)?;
    out.flush()
}

fn print_all(out: &mut impl Write, bytes: &mut [u8]) -> io::Result<()> {
    print_plates(out, &tables::FILES, bytes)?;
    print_plates(out, &tables::COUNTS, bytes)?;
    print_plates(out, &tables::SIDES, bytes)?;
    print_plates(out, &tables::WORDS, bytes)?;
    print_pairs(out, Kind::Pvr, &tables::PVR_ORDER, bytes)?;
    print_pairs(out, Kind::Ktx, &tables::KTX_ORDER, bytes)?;
    print_flags(out, bytes)?;
    print_differing(out, bytes)
}

// Each row of the tables as a file of both kinds and at both depths. Only a KTX file has a wrong size word, and no row but of `WORDS` has 99 for none.
fn print_plates(out: &mut impl Write, listed: &[[u32; 8]], bytes: &mut [u8]) -> io::Result<()> {
    for [width, height, levels, skipped, level, word, from, to] in listed {
        let wrong = (*level != 99).then_some(Wrong {
            level: *level,
            word: *word,
        });
        for kind in [Kind::Pvr, Kind::Ktx] {
            for is2bpp in [false, true] {
                if wrong.is_none() || kind == Kind::Ktx {
                    let case = Case {
                        kind,
                        is2bpp,
                        width: *width,
                        height: *height,
                        levels: *levels,
                        skipped: *skipped,
                        wrong,
                    };
                    print_levels(out, case, *from, *to, bytes)?;
                }
            }
        }
    }
    Ok(())
}

// The asked levels of a file.
fn print_levels(
    out: &mut impl Write,
    case: Case,
    from: u32,
    to: u32,
    bytes: &mut [u8],
) -> io::Result<()> {
    lay(bytes, case);
    for place in from..to {
        print_level(out, case, level_of(place), bytes)?;
    }
    Ok(())
}

// The level that is asked at a place: its number, or behind these a large one.
fn level_of(place: u32) -> usize {
    match place {
        18 => 4294967296,
        19 => 4294967297,
        20 => 9223372036854775808,
        21 => 18446744073709551615,
        _ => place as usize,
    }
}

fn print_level(out: &mut impl Write, case: Case, k: usize, bytes: &[u8]) -> io::Result<()> {
    write!(
        out,
        "{case}, level {k}: {}",
        Described(levels::read_level(bytes, k))
    )?;
    print_decoded(out, bytes, k, ChannelOrder::BlueFirst)?;
    write!(out, "  red first")?;
    print_decoded(out, bytes, k, ChannelOrder::RedFirst)
}

// A level of a whole file, and where it has one, at its edges: with its bytes and words and no more, with a word less, with a byte less, and cut
// behind, in and before its size word.
fn print_decoded(
    out: &mut impl Write,
    bytes: &[u8],
    k: usize,
    order: ChannelOrder,
) -> io::Result<()> {
    print_tried(out, bytes, k, 6000, order)?;
    if let Ok(level) = levels::read_level(bytes, k) {
        let start = level.start;
        let end = start.saturating_add(level.need);
        let room = level.width.saturating_mul(level.height);
        print_tried(out, listing::first(bytes, end), k, room, order)?;
        print_tried(
            out,
            listing::first(bytes, end),
            k,
            room.saturating_sub(1),
            order,
        )?;
        print_tried(
            out,
            listing::first(bytes, end.saturating_sub(1)),
            k,
            room,
            order,
        )?;
        print_tried(out, listing::first(bytes, start), k, room, order)?;
        print_tried(
            out,
            listing::first(bytes, start.saturating_sub(2)),
            k,
            room,
            order,
        )?;
        print_tried(
            out,
            listing::first(bytes, start.saturating_sub(4)),
            k,
            room,
            order,
        )?;
    }
    writeln!(out)
}

// Every two refusals of an order at once, of which level 1 is asked. The one that is later in the order comes in first.
fn print_pairs(
    out: &mut impl Write,
    kind: Kind,
    order: &[Fault],
    bytes: &mut [u8],
) -> io::Result<()> {
    for (i, first) in order.iter().enumerate() {
        for second in &order[i..] {
            print_two(out, kind, *first, *second, bytes)?;
        }
    }
    Ok(())
}

// A file with two faults.
fn print_two(
    out: &mut impl Write,
    kind: Kind,
    first: Fault,
    second: Fault,
    bytes: &mut [u8],
) -> io::Result<()> {
    let faults = [first, second];
    let case = faulty(kind, &faults);
    lay(bytes, case);
    second.bring(bytes);
    first.bring(bytes);
    write!(out, "{kind} faults {first} and {second}")?;
    let k = if faults == [Fault::TooManyLevels, Fault::NoSuchLevel] {
        33
    } else {
        1
    };
    let room = if faults.contains(&Fault::ShortImage) {
        0
    } else {
        6000
    };
    let file = listing::first(bytes, end_with(&faults, case));
    print_answers(out, file, k, room)?;
    writeln!(out)?;
    print_red_first(out, file, k, room)
}

// A plate of 8 by 64 texels at 4bpp, with what refusals are given for, as far as it is chosen. With a large side the rows are 65,600, of which level
// 1 would not be refused for that but for its blocks.
fn faulty(kind: Kind, faults: &[Fault]) -> Case {
    let width = if faults.contains(&Fault::ZeroSide) {
        0
    } else {
        8
    };
    let wrong = faults
        .contains(&Fault::OtherSize)
        .then_some(Wrong { level: 1, word: 33 });
    Case {
        kind,
        is2bpp: false,
        width,
        height: height_with(faults),
        levels: levels_with(faults),
        skipped: 13,
        wrong,
    }
}

fn height_with(faults: &[Fault]) -> u32 {
    if faults.contains(&Fault::LargeSide) {
        65600
    } else if faults.contains(&Fault::NotPowerOfTwo) {
        48
    } else {
        64
    }
}

fn levels_with(faults: &[Fault]) -> u32 {
    if faults.contains(&Fault::NoLevel) {
        0
    } else if faults.contains(&Fault::TooManyLevels) {
        33
    } else if faults.contains(&Fault::NoSuchLevel) {
        1
    } else {
        6
    }
}

// Where the file ends: in its header, in the key/value bytes, in level 1's size word, in its data, or behind it.
fn end_with(faults: &[Fault], case: Case) -> usize {
    let start = second_start(case);
    if faults.contains(&Fault::ShortPvrHeader) {
        51
    } else if faults.contains(&Fault::ShortKtxHeader) {
        63
    } else if faults.contains(&Fault::CutShort) {
        76
    } else if faults.contains(&Fault::CutBeforeLevel) {
        start.saturating_sub(1)
    } else if faults.contains(&Fault::ShortData) {
        let need = replayed::stored_need(half(case.width), half(case.height), false);
        start.saturating_add(need).saturating_sub(1)
    } else {
        6000
    }
}

// Where level 1 starts behind 13 skipped bytes.
fn second_start(case: Case) -> usize {
    let front = match case.kind {
        Kind::Pvr => 65,
        Kind::Ktx => 85,
    };
    replayed::stored_need(case.width, case.height, false).saturating_add(front)
}

// Flags of a PVR file, alone and with what is wrong beside them. The plate is the one that two refusals are brought into, with nothing wrong but
// what is said. Level 1 is asked.
fn print_flags(out: &mut impl Write, bytes: &mut [u8]) -> io::Result<()> {
    for flags in &tables::FLAGS {
        for faults in BESIDE_FLAGS {
            lay(bytes, faulty(Kind::Pvr, &[]));
            samples::set_u32(bytes, 4, *flags);
            write!(out, "pvr flags {flags}")?;
            if !faults.is_empty() {
                write!(out, ", faults")?;
            }
            for fault in faults {
                fault.bring(bytes);
                write!(out, " {fault}")?;
            }
            print_answers(out, bytes, 1, 6000)?;
            writeln!(out)?;
            print_red_first(out, bytes, 1, 6000)?;
        }
    }
    Ok(())
}

// The first level by the level's calls, and what the others answer.
fn print_differing(out: &mut impl Write, bytes: &mut [u8]) -> io::Result<()> {
    for (kind, width, height, levels, end) in &DIFFERING {
        let case = Case {
            kind: *kind,
            is2bpp: false,
            width: *width,
            height: *height,
            levels: *levels,
            skipped: 0,
            wrong: None,
        };
        lay(bytes, case);
        write!(out, "{case}, level 0")?;
        let file = listing::first(bytes, *end);
        print_answers(out, file, 0, 6000)?;
        print_others(out, file)?;
        print_red_first(out, file, 0, 6000)?;
    }
    Ok(())
}

// Lays a file, its levels' data by the rule of sample files.
fn lay(bytes: &mut [u8], case: Case) {
    match case.kind {
        Kind::Pvr => lay_pvr(bytes, case),
        Kind::Ktx => lay_ktx(bytes, case),
    }
}

fn lay_pvr(bytes: &mut [u8], case: Case) {
    let mut header = tables::PVR;
    header[2] = if case.is2bpp { 1 } else { 3 };
    header[6] = case.height;
    header[7] = case.width;
    header[11] = case.levels;
    header[12] = case.skipped;
    samples::lay_file(&header, bytes);
}

fn lay_ktx(bytes: &mut [u8], case: Case) {
    let mut header = tables::KTX;
    header[7] = if case.is2bpp { 0x8c03 } else { 0x8c02 };
    header[9] = case.width;
    header[10] = case.height;
    header[14] = case.levels;
    header[15] = case.skipped;
    samples::lay_file(&header, bytes);
    lay_words(bytes, case);
}

// The size words of seventeen levels, as far as there are places for them.
fn lay_words(bytes: &mut [u8], case: Case) {
    let mut at = 64 + case.skipped as usize;
    let (mut width, mut height) = (case.width, case.height);
    for level in 0..17 {
        let need = replayed::stored_need(width, height, case.is2bpp);
        if at < 6000 {
            samples::set_u32(bytes, at as u32, word_of(case, level, need));
        }
        at = at.saturating_add(4).saturating_add(need);
        (width, height) = (half(width), half(height));
    }
}

// The size word of a level: what it needs, or the wrong one.
fn word_of(case: Case, level: u32, need: usize) -> u32 {
    match case.wrong {
        Some(wrong) if wrong.level == level => wrong.word,
        _ => (need % 4294967296) as u32,
    }
}

fn half(side: u32) -> u32 {
    (side / 2).max(1)
}

// What describing and decoding a level answer, into so many words.
fn print_answers(out: &mut impl Write, file: &[u8], k: usize, room: usize) -> io::Result<()> {
    write!(out, ": {}", Described(levels::read_level(file, k)))?;
    print_tried(out, file, k, room, ChannelOrder::BlueFirst)
}

// A line of what decoding it red first answers.
fn print_red_first(out: &mut impl Write, file: &[u8], k: usize, room: usize) -> io::Result<()> {
    write!(out, "  red first")?;
    print_tried(out, file, k, room, ChannelOrder::RedFirst)?;
    writeln!(out)
}

// The numbers of both calls' refusals, 0 for none, on at most as many words as there are, and the sum over the lent words afterwards, which were 0.
fn print_tried(
    out: &mut impl Write,
    file: &[u8],
    k: usize,
    room: usize,
    order: ChannelOrder,
) -> io::Result<()> {
    let mut image = [0; 6000];
    let words = &mut image[..room.min(6000)];
    let (end, room) = (file.len(), words.len());
    let described = facts::number_said(levels::read_level(file, k).map(|_| ()));
    let answer = listing::answer_of(words, |words| levels::decode_level(file, k, order, words));
    write!(out, "; end {end}, room {room}: {described} {answer}")
}

// What the KTX header's reader answers, and how many bytes `plate` writes: the line of a refusal has 10 or 11, and the TGA of 5 by 5 texels 118.
fn print_others(out: &mut impl Write, file: &[u8]) -> io::Result<()> {
    match ktx::read_header(file) {
        Ok(plate) => write!(out, "; header {} x {}", plate.width, plate.height)?,
        Err(f) => write!(out, "; header refused {}", f.number())?,
    }
    let mut image = [0; IMAGE_WORDS];
    let mut room = [0; OUT_BYTES];
    let count = write_program(file, &mut image, &mut room);
    writeln!(out, "; program writes {count}")
}

// The program's call for C, into arrays that are lent whole: where they are made, a proof would count them through.
fn write_program(file: &[u8], image: &mut [u32; IMAGE_WORDS], out: &mut [u8; OUT_BYTES]) -> usize {
    convert::plate_convert(file, image, out)
}
