// Prints what the leaves answer: the colours and weights of some three hundred words, and the addresses of ten grids. What it must
// print, in the file `stdout`, was written by the Rust. It is one module, since what a function prints is nothing that it could promise.
#![tactic(auto)]

ghost use Rattle.grid.specs.Grid.{Placed};

use std::io::Write;
use std::{fmt, io};
use word::PVRTCTexelColor;

// The grids: blocks across and down.
static GRIDS: [(u16, u16); 10] = [
    (1, 1),
    (2, 1),
    (1, 2),
    (4, 4),
    (8, 2),
    (2, 8),
    (16, 16),
    (64, 1),
    (1, 64),
    (32, 8),
];

// The words, each on four lines: its bytes, its colours, and what is read of its weights at 4bpp and at 2bpp. Then the grids, twice: bit
// by bit and by table, each on a line: the blocks across and down, then each block's address, row after row.
fn main(rt: HostRuntime) -> io::Result<()> {
    let mut out = io::writer(&rt);
    print_chosen_words(&mut out)?;
    print_drawn_words(&mut out)?;
    print_grids(&mut out, "bits", grid::morton_index)?;
    print_grids(&mut out, "table", |x, y, side| {
        grid::morton_index_by_table(x, y, side)
    })?;
    out.flush()
}

// Numbers of a line, each with a space before it.
#[derive(Clone, Copy)]
struct Listed<'a>(&'a [u8]);

impl fmt::Display for Listed<'_> {
    fn fmt<W: fmt::Write>(&self, f: &mut fmt::Formatter<W>) -> fmt::Result {
        for number in self.0 {
            write!(f, " {number}")?;
        }
        Ok(())
    }
}

// A colour's four numbers.
#[derive(Clone, Copy)]
struct Colour(PVRTCTexelColor);

impl fmt::Display for Colour {
    fn fmt<W: fmt::Write>(&self, f: &mut fmt::Formatter<W>) -> fmt::Result {
        let PVRTCTexelColor { r, g, b, a } = self.0;
        write!(f, "{r} {g} {b} {a}")
    }
}

// The words chosen for their edges.
fn print_chosen_words(out: &mut impl Write) -> io::Result<()> {
    print_word(out, &word_of(0, 0, 0))?;
    print_word(out, &word_of(0xffffffff, 0xffff, 0xffff))?;
    print_mode_words(out)?;
    print_code_words(out)?;
    print_colour_words(out)
}

// Each mode with each choice of bits 0 and 20 of the modulation, where every place has the same code otherwise.
fn print_mode_words(out: &mut impl Write) -> io::Result<()> {
    for codes in [0, 0x55555555, 0xaaaaaaaa, 0xffffffff] {
        for a in [0x8000, 0x8001] {
            for bits in [0, 1, 0x100000, 0x100001] {
                print_word(out, &word_of(codes & 0xffeffffe | bits, a, 0x8000))?;
            }
        }
    }
    Ok(())
}

// Codes 1, 2 and 3 at each place of the modulation, in each mode.
fn print_code_words(out: &mut impl Write) -> io::Result<()> {
    for code in 1..4u32 {
        for place in 0..16u32 {
            for mode in [0, 1] {
                print_word(out, &word_of(code << (2 * place), mode, 0))?;
            }
        }
    }
    Ok(())
}

// Each edge of each nibble of a colour, over four grounds. B has the opposite ground.
fn print_colour_words(out: &mut impl Write) -> io::Result<()> {
    for ground in [0, 0x7fff, 0x8000, 0xffff] {
        for place in [0, 4, 8, 12] {
            for edge in [0, 7, 8, 15] {
                let nibble = |whole: u16| whole & !(15 << place) | edge << place;
                print_word(out, &word_of(0, nibble(ground), nibble(!ground)))?;
            }
        }
    }
    Ok(())
}

// The bytes of the word with this modulation and these colours.
fn word_of(modulation: u32, a: u16, b: u16) -> [u8; 8] {
    let [m0, m1, m2, m3] = modulation.to_le_bytes();
    let [a0, a1] = a.to_le_bytes();
    let [b0, b1] = b.to_le_bytes();
    [m0, m1, m2, m3, a0, a1, b0, b1]
}

// Words drawn by the generator.
fn print_drawn_words(out: &mut impl Write) -> io::Result<()> {
    let mut state = 1;
    for _ in 0..110u8 {
        let mut data = [0; 8];
        state = samples::draw_bytes(&mut data, state);
        print_word(out, &data)?;
    }
    Ok(())
}

// What is read of a word: the colours; the sixteen weights and the punch-through flag at 4bpp; the 32 weights and the fill rule at 2bpp.
fn print_word(out: &mut impl Write, data: &[u8; 8]) -> io::Result<()> {
    let narrow = word::read_word(data, false);
    let wide = word::read_word(data, true);
    let (a, b) = (Colour(narrow.a), Colour(narrow.b));
    let flag = narrow.punch_through_flag;
    let rule = wide.fill as u8;
    writeln!(out, "word{}", Listed(data))?;
    writeln!(out, "colours {a} {b}")?;
    writeln!(out, "4bpp{} {flag}", Listed(&narrow.weight[..16]))?;
    writeln!(out, "2bpp{} {rule}", Listed(&wide.weight))
}

// The ten grids, with addresses by one function or the other.
fn print_grids<F: Fn(usize, usize, usize) -> usize>(
    out: &mut impl Write,
    name: &str,
    address: F,
) -> io::Result<()>
    requires { (x y side : _) → Placed side x y → F.pre address x y side }
{
    for (across, down) in &GRIDS {
        write!(out, "{name} {across} {down}")?;
        print_addresses(out, *across, *down, &address)?;
        writeln!(out)?;
    }
    Ok(())
}

// The addresses of a grid's blocks, or nothing where no grid with that smaller side has such a block.
fn print_addresses<F: Fn(usize, usize, usize) -> usize>(
    out: &mut impl Write,
    across: u16,
    down: u16,
    address: F,
) -> io::Result<()>
    requires { (x y side : _) → Placed side x y → F.pre address x y side }
{
    let side = across.min(down) as usize;
    for y in 0..down {
        for x in 0..across {
            let (x, y) = (x as usize, y as usize);
            if grid::is_power_of_two(side) && x.min(y) < side {
                write!(out, " {}", address(x, y, side))?;
            }
        }
    }
    Ok(())
}
