// Prints what `plate` writes for some hundreds of files, each a plain one with something changed. What it must print, in the file `stdout`,
// was written by tools/replay_plates. It is one module, since what a function prints is nothing that it could promise.
#![tactic(auto)]

mod tables;

use replayed::{Fault, Output};
use std::io;
use std::io::Write;

// What is wrong with a field of the header, in the order of the refusals.
static FIELDS: [Fault; 7] = [
    Fault::UnknownFlags,
    Fault::UnknownPvrFormat,
    Fault::DepthNotOne,
    Fault::SurfacesNotOne,
    Fault::FacesNotOne,
    Fault::NoLevel,
    Fault::ZeroSide,
];

// Nothing beside flags, a wrong first byte before them, a wrong format after them, and both.
static BESIDE_FLAGS: [&[Fault]; 4] = [
    &[],
    &[Fault::NotPvr],
    &[Fault::UnknownPvrFormat],
    &[Fault::NotPvr, Fault::UnknownPvrFormat],
];

fn main(rt: HostRuntime) -> io::Result<()> {
    let mut out = io::writer(&rt);
    let mut bytes = [0; 40000];
    print_files(&mut out, &mut bytes)?;
    out.flush()
}

fn print_files(out: &mut impl Write, bytes: &mut [u8]) -> io::Result<()> {
    print_cuts(out, bytes)?;
    print_places(out, bytes)?;
    print_ends(out, bytes)?;
    print_sizes(out, bytes)?;
    print_tiny(out, bytes)?;
    print_pairs(out, bytes)?;
    print_fields(out, bytes)?;
    print_flags(out, bytes)
}

// The first bytes of a plain file: every cut of the header, and of the data.
fn print_cuts(out: &mut impl Write, bytes: &mut [u8]) -> io::Result<()> {
    samples::lay_file(&tables::PLAIN, bytes);
    for end in 0..86 {
        write!(out, "cut {end}")?;
        print_answer(out, listing::first(bytes, end))?;
    }
    Ok(())
}

// A field of the header with another value.
fn print_places(out: &mut impl Write, bytes: &mut [u8]) -> io::Result<()> {
    for (at, word) in &tables::FIELDS {
        samples::lay_file(&tables::PLAIN, bytes);
        samples::set_u32(bytes, *at, *word);
        write!(out, "place {at} has {word}")?;
        print_answer(out, bytes)?;
    }
    Ok(())
}

// Much metadata, and a file that ends in it or in the data behind it.
fn print_ends(out: &mut impl Write, bytes: &mut [u8]) -> io::Result<()> {
    for (metadata, end) in &tables::ENDS {
        samples::lay_file(&tables::PLAIN, bytes);
        samples::set_u32(bytes, 48, *metadata);
        write!(out, "metadata {metadata}, cut {end}")?;
        print_answer(out, listing::first(bytes, *end))?;
    }
    Ok(())
}

// A format and two sides, behind as much metadata as is allowed.
fn print_sizes(out: &mut impl Write, bytes: &mut [u8]) -> io::Result<()> {
    for (format, width, height) in &tables::SIZES {
        lay_sized(bytes, *format, *width, *height);
        write!(out, "format {format}, size {width} x {height}")?;
        print_answer(out, bytes)?;
    }
    Ok(())
}

// The same, and where the file ends.
fn print_tiny(out: &mut impl Write, bytes: &mut [u8]) -> io::Result<()> {
    for (format, width, height, end) in &tables::TINY {
        lay_sized(bytes, *format, *width, *height);
        write!(out, "end {end}, format {format}, size {width} x {height}")?;
        print_answer(out, listing::first(bytes, *end))?;
    }
    Ok(())
}

fn lay_sized(bytes: &mut [u8], format: u32, width: u32, height: u32) {
    samples::lay_file(&tables::PLAIN, bytes);
    samples::set_u32(bytes, 8, format);
    set_sides(bytes, width, height);
    samples::set_u32(bytes, 48, 4096);
}

fn set_sides(bytes: &mut [u8], width: u32, height: u32) {
    samples::set_u32(bytes, 24, height);
    samples::set_u32(bytes, 28, width);
}

// Every two refusals at once. The one that is later in the order comes in first.
fn print_pairs(out: &mut impl Write, bytes: &mut [u8]) -> io::Result<()> {
    for (i, first) in tables::ORDER.iter().enumerate() {
        for second in &tables::ORDER[i..] {
            samples::lay_file(&tables::PLAIN, bytes);
            bring(bytes, *second);
            bring(bytes, *first);
            write!(out, "faults {first} and {second}")?;
            print_answer(
                out,
                listing::first(bytes, end_of(*first).min(end_of(*second))),
            )?;
        }
    }
    Ok(())
}

// Flags, depth, surfaces, faces, levels, the format before them and a side after, each wrong or not: a bit for each.
fn print_fields(out: &mut impl Write, bytes: &mut [u8]) -> io::Result<()> {
    for wrong in 0..128u32 {
        samples::lay_file(&tables::PLAIN, bytes);
        write!(out, "at once")?;
        for (bit, fault) in FIELDS.iter().enumerate() {
            if wrong >> bit & 1 == 1 {
                bring(bytes, *fault);
                write!(out, " {fault}")?;
            }
        }
        print_answer(out, bytes)?;
    }
    Ok(())
}

// Flags alone, and with what is wrong beside them.
fn print_flags(out: &mut impl Write, bytes: &mut [u8]) -> io::Result<()> {
    for flags in &tables::FLAGS {
        for faults in BESIDE_FLAGS {
            samples::lay_file(&tables::PLAIN, bytes);
            samples::set_u32(bytes, 4, *flags);
            write!(out, "flags {flags}")?;
            if !faults.is_empty() {
                write!(out, ", faults")?;
            }
            for fault in faults {
                bring(bytes, *fault);
                write!(out, " {fault}")?;
            }
            print_answer(out, bytes)?;
        }
    }
    Ok(())
}

// Brings in what a refusal is given for. One that asks a side may undo another that does.
fn bring(bytes: &mut [u8], fault: Fault) {
    match fault {
        Fault::NoLevel => samples::set_u32(bytes, 44, 0),
        Fault::MuchSkipped => samples::set_u32(bytes, 48, 4097),
        Fault::ZeroSide => samples::set_u32(bytes, 24, 0),
        Fault::LongSide => samples::set_u32(bytes, 28, 1025),
        Fault::LargeNeed => set_sides(bytes, 1000, 1000),
        Fault::NotPowerOfTwo => set_sides(bytes, 12, 8),
        _ => fault.bring(bytes),
    }
}

// Where a file with this fault ends.
fn end_of(fault: Fault) -> usize {
    match fault {
        Fault::ShortPvrHeader => 51,
        Fault::ShortData => 83,
        _ => 40000,
    }
}

// What the program answers for a file.
fn print_answer(out: &mut impl Write, file: &[u8]) -> io::Result<()> {
    replayed::with_output(file, |written| write!(out, ": {}", Output(written)))
}
