// Prints what the KTX calls answer and what `plate` writes for some four hundred files, each a plain one with something changed; and in a line
// of its own, what decoding the file red first answers. What it must print, in the file `stdout`, was written by tools/replay_ktx. It is one
// module, since what a function prints is nothing that it could promise.
#![tactic(auto)]

mod tables;

use facts::Numbered;
use listing::{Answer, Depth};
use pixel::ChannelOrder;
use replayed::{Fault, Output};
use std::io::Write;
use std::{fmt, io};

// What is chosen of a file, where it ends, and how many words are lent for its picture.
#[derive(Clone, Copy)]
struct Case {
    format: u32,
    key_values: u32,
    width: u32,
    height: u32,
    size: u32,
    end: usize,
    room: usize,
}

// A file that nothing refuses, and more words than it takes.
const PLAIN: Case = Case {
    format: 0x8c02,
    key_values: 12,
    width: 8,
    height: 8,
    size: 32,
    end: 66000,
    room: 8200,
};

// A row of the tables.
impl From<[u32; 7]> for Case {
    fn from([format, key_values, width, height, size, end, room]: [u32; 7]) -> Case {
        Case {
            format,
            key_values,
            width,
            height,
            size,
            end: end as usize,
            room: room as usize,
        }
    }
}

// What is chosen of a file, in words.
impl fmt::Display for Case {
    fn fmt<W: fmt::Write>(&self, f: &mut fmt::Formatter<W>) -> fmt::Result {
        let (format, key_values, size) = (self.format, self.key_values, self.size);
        let (width, height, end, room) = (self.width, self.height, self.end, self.room);
        write!(
            f,
            "{format:04x}, key/values {key_values}, {width} x {height}, "
        )?;
        write!(f, "size {size}, end {end}, room {room}")
    }
}

fn main(rt: HostRuntime) -> io::Result<()> {
    let mut out = io::writer(&rt);
    let mut bytes = [0; 66000];
    print_files(&mut out, &mut bytes)?;
    out.flush()
}

fn print_files(out: &mut impl Write, bytes: &mut [u8]) -> io::Result<()> {
    print_cuts(out, bytes)?;
    print_places(out, bytes)?;
    print_turned(out, bytes)?;
    print_cases(out, "case", &tables::FORMAT_CASES, bytes)?;
    print_key_values(out, bytes)?;
    print_cases(out, "case", &tables::SIDE_CASES, bytes)?;
    print_cases(out, "case", &tables::LONG_SIDES, bytes)?;
    print_cases(out, "case", &tables::ROOM_CASES, bytes)?;
    print_cases(out, "tiny", &tables::TINY, bytes)?;
    print_pairs(out, bytes)
}

// The first bytes of a plain file: every cut of the header, of the key/value bytes, of the size word and of the data.
fn print_cuts(out: &mut impl Write, bytes: &mut [u8]) -> io::Result<()> {
    lay(bytes, PLAIN);
    for end in 0..115 {
        write!(out, "cut {end}")?;
        print_answers(out, listing::first(bytes, end), 8200)?;
    }
    Ok(())
}

// Four bytes of a plain file with another value.
fn print_places(out: &mut impl Write, bytes: &mut [u8]) -> io::Result<()> {
    for (at, word) in &tables::PLACES {
        lay(bytes, PLAIN);
        samples::set_u32(bytes, *at, *word);
        write!(out, "place {at} has {word:08x}")?;
        print_answers(out, bytes, 8200)?;
    }
    Ok(())
}

// A plain file as a big-endian machine writes it: all fields turned, and the size word.
fn print_turned(out: &mut impl Write, bytes: &mut [u8]) -> io::Result<()> {
    samples::lay_file(&tables::TURNED, bytes);
    samples::set_u32(bytes, 76, 0x20000000);
    write!(out, "all fields turned")?;
    print_answers(out, bytes, 8200)
}

// A plain file with other key/value bytes, and where it ends.
fn print_key_values(out: &mut impl Write, bytes: &mut [u8]) -> io::Result<()> {
    for (key_values, end) in &tables::KEY_VALUES {
        let case = Case {
            key_values: *key_values,
            end: *end,
            ..PLAIN
        };
        print_case(out, "case", case, bytes)?;
    }
    Ok(())
}

fn print_cases(
    out: &mut impl Write,
    name: &str,
    listed: &[[u32; 7]],
    bytes: &mut [u8],
) -> io::Result<()> {
    for row in listed {
        print_case(out, name, Case::from(*row), bytes)?;
    }
    Ok(())
}

fn print_case(out: &mut impl Write, name: &str, case: Case, bytes: &mut [u8]) -> io::Result<()> {
    lay(bytes, case);
    write!(out, "{name} {case}")?;
    print_answers(out, listing::first(bytes, case.end), case.room)
}

// Every two refusals at once. The one that is later in the order comes in first.
fn print_pairs(out: &mut impl Write, bytes: &mut [u8]) -> io::Result<()> {
    for (i, first) in tables::ORDER.iter().enumerate() {
        for second in &tables::ORDER[i..] {
            let case = faulty([*second, *first]);
            lay(bytes, case);
            second.bring(bytes);
            first.bring(bytes);
            write!(out, "faults {first} and {second}")?;
            print_answers(out, listing::first(bytes, case.end), case.room)?;
        }
    }
    Ok(())
}

// A plain file with what two refusals are given for, as far as it is one of the chosen numbers. Where both ask a side, the later one has it.
fn faulty(faults: [Fault; 2]) -> Case {
    let mut case = PLAIN;
    for fault in faults {
        match fault {
            Fault::ZeroSide => case.height = 0,
            Fault::LargeSide => case.width = 65537,
            Fault::LongSide => case.width = 1025,
            Fault::LargeNeed => (case.width, case.height) = (1000, 1000),
            Fault::NotPowerOfTwo => (case.width, case.height) = (12, 8),
            Fault::UnknownKtxFormat => case.format = 0x8c04,
            Fault::MuchSkipped => case.key_values = 4097,
            Fault::ShortImage => case.room = 63,
            _ => {}
        }
    }
    Case {
        size: size_with(&faults, case),
        end: end_with(&faults, case),
        ..case
    }
}

// The need, or what is never one.
fn size_with(faults: &[Fault], case: Case) -> u32 {
    if faults.contains(&Fault::OtherSize) {
        33
    } else {
        (replayed::stored_need(case.width, case.height, false) % 4294967296) as u32
    }
}

// Where the file ends: in its header, in its size word, in its data, or behind it.
fn end_with(faults: &[Fault], case: Case) -> usize {
    let payload = 68 + case.key_values as usize;
    if faults.contains(&Fault::ShortKtxHeader) {
        63
    } else if faults.contains(&Fault::CutShort) {
        payload - 1
    } else if faults.contains(&Fault::ShortData) {
        payload + 31
    } else {
        66000
    }
}

// Lays a plain file with what is chosen of it. Its size word is laid where there is a place for it.
fn lay(bytes: &mut [u8], case: Case) {
    let mut header = tables::PLAIN;
    header[7] = case.format;
    header[9] = case.width;
    header[10] = case.height;
    header[15] = case.key_values;
    samples::lay_file(&header, bytes);
    if case.key_values < 66000 {
        samples::set_u32(bytes, 64 + case.key_values, case.size);
    }
}

// What the calls answer for a file, and so many words.
fn print_answers(out: &mut impl Write, file: &[u8], room: usize) -> io::Result<()> {
    print_header(out, file)?;
    let blue_first = decode(file, room, ChannelOrder::BlueFirst);
    write!(out, "; picture {blue_first}; program ")?;
    replayed::with_output(file, |written| write!(out, "{}", Output(written)))?;
    let red_first = decode(file, room, ChannelOrder::RedFirst);
    writeln!(out, "  red first: picture {red_first}")
}

// What the header's reader answers.
fn print_header(out: &mut impl Write, file: &[u8]) -> io::Result<()> {
    match ktx::read_header(file) {
        Ok(plate) => {
            let (width, height, depth) = (plate.width, plate.height, Depth(plate.is2bpp));
            let (payload, size) = (plate.payload, plate.size);
            write!(
                out,
                ": header {width} x {height}, {depth}, data at {payload}, size {size}"
            )
        }
        Err(f) => write!(out, ": header refused {}", f.number()),
    }
}

// What decoding into so many words answers, of at most 131,072, which were 0.
fn decode(file: &[u8], room: usize, order: ChannelOrder) -> Answer {
    let mut image = [0; 131072];
    decode_into(file, room, order, &mut image)
}

// The same, into words that are lent: where they are made, a proof would count them through.
fn decode_into(file: &[u8], room: usize, order: ChannelOrder, image: &mut [u32]) -> Answer {
    let room = room.min(image.len());
    listing::answer_of(&mut image[..room], |words| {
        ktx::decode_ktx(file, order, words)
    })
}
