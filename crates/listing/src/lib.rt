// What the programs of the gate share that print listings: how depths, orders, modes and pictures are called there, what a picture needs,
// and the block call of either name on a picture's description.
#![tactic(auto)]

ghost use Rattle.std.specs.Prelude.{◌≡◌, ◌*◌, length, min, take, Result, Some};
ghost use Rattle.std.specs.Fn.{FnOnceReturnsAtMut};
ghost use Rattle.facts.specs.Checks.{number_said};
ghost use Rattle.samples.specs.Draw.{state_after};
ghost use Rattle.samples.specs.Sums.{checksum};
ghost use Rattle.pixel.specs.declared.ChannelOrder.TheVariants as order;
ghost use Rattle.pvrtc.specs.Calls.{BlockDecoded};
ghost use Rattle.pvrtc.specs.Picture.{picture};
ghost use Rattle.pvrtc.specs.declared.GridMode.TheVariants as mode;
ghost use Rattle.listing.specs.Made.{drawn_words, Made};
ghost use Rattle.listing.specs.Names.{depth_name, order_name, mode_name, shape_text, answer_text, taken_need};

use facts::Numbered;
use pixel::ChannelOrder;
use pvrtc::{GridMode, Picture, Refusal};
use std::fmt;

// Each order of the channels: what is printed is so blue first, and then red first.
pub const ORDERS: [ChannelOrder; 2] = [ChannelOrder::BlueFirst, ChannelOrder::RedFirst];

// Each mode of a picture's grid.
pub const MODES: [GridMode; 2] = [GridMode::Rust, GridMode::Stored];

// A depth, by whether it is 2bpp.
#[derive(Clone, Copy)]
pub struct Depth(pub bool);

// An order, behind what it is said of: only red first is said.
#[derive(Clone, Copy)]
pub struct Order(pub ChannelOrder);

// A mode.
#[derive(Clone, Copy)]
pub struct Mode(pub GridMode);

// A picture's size, depth and order.
#[derive(Clone, Copy)]
pub struct Shape(pub Picture);

// What a call that writes into lent words answers: the number of the refusal, 0 for none, and the sum over every lent word afterwards.
#[derive(Clone, Copy, PartialEq, Eq)]
pub struct Answer {
    pub number: u64,
    pub sum: u64,
}

impl fmt::Display for Depth {
    ghost output = { λ d. Some (depth_name d.0) };

    fn fmt<W: fmt::Write>(&self, f: &mut fmt::Formatter<W>) -> fmt::Result {
        f.write_str(if self.0 { "2bpp" } else { "4bpp" })
    }
}

impl fmt::Display for Order {
    ghost output = { λ o. Some (order_name o.0) };

    fn fmt<W: fmt::Write>(&self, f: &mut fmt::Formatter<W>) -> fmt::Result {
        f.write_str(match self.0 {
            ChannelOrder::BlueFirst => "",
            ChannelOrder::RedFirst => ", red first",
        })
    }
}

impl fmt::Display for Mode {
    ghost output = { λ m. Some (mode_name m.0) };

    fn fmt<W: fmt::Write>(&self, f: &mut fmt::Formatter<W>) -> fmt::Result {
        f.write_str(match self.0 {
            GridMode::Rust => "Rust",
            GridMode::Stored => "stored",
        })
    }
}

impl fmt::Display for Shape {
    ghost output = { λ s. Some (shape_text s.0) };

    fn fmt<W: fmt::Write>(&self, f: &mut fmt::Formatter<W>) -> fmt::Result {
        let p = self.0;
        let (width, height, depth, order) = (p.width, p.height, Depth(p.is2bpp), Order(p.order));
        write!(f, "{width} x {height}, {depth}{order}")
    }
}

impl fmt::Display for Answer {
    ghost output = { λ a. Some (answer_text a.number a.sum) };

    fn fmt<W: fmt::Write>(&self, f: &mut fmt::Formatter<W>) -> fmt::Result {
        let (number, sum) = (self.number, self.sum);
        write!(f, "{number}, sum {sum}")
    }
}

// Makes a call that writes into lent words.
pub fn answer_of<E: Numbered, F: FnOnce(&mut [u32]) -> Result<(), E>>(
    words: &mut [u32],
    decode: F,
) -> Answer
    requires { F.IsAlwaysCallable decode }
    ensures called { (r : Result (Unit {0}) E) × FnOnceReturnsAtMut F.FnOnce decode words.old r words.new × (result.number ≡ number_said E.number r) }
    ensures summed { result.sum ≡ checksum 1103515245 8589934583 words.new (length words.new) }
{
    let number = facts::number_said(decode(words));
    let sum = samples::sum_of_words(words);
    Answer { number, sum }
}

// What a call gets: a picture, lent bytes, and so many lent words, of at most 8,256, which the generator draws from a state on.
#[derive(Clone, Copy)]
pub struct Case<'a> {
    pub picture: Picture,
    pub data: &'a [u8],
    pub words: usize,
    pub state: u64,
}

impl Case<'_> {
    // Makes a call.
    pub fn answer<F: Fn(&[u8], Picture, &mut [u32]) -> Result<(), Refusal>>(
        self,
        decode: F,
    ) -> Answer
        requires { F.IsAlwaysCallable decode }
        ensures { Made (F.post decode) self.entry.«data».now self.entry.picture (drawn_words self.entry.words self.entry.state) result.number result.sum }
    {
        let mut room = [0; 8256];
        let words = &mut room[..self.words.min(8256)];
        samples::draw_words(words, self.state);
        answer_of(words, |words| decode(self.data, self.picture, words))
    }

    // The generator's state after the lent words.
    pub fn state_after(self) -> u64
        ensures { result ≡ state_after self.entry.state (2 * min self.entry.words 8256) }
    {
        let mut room = [0; 8256];
        samples::draw_words(&mut room[..self.words.min(8256)], self.state)
    }
}

// The first so many bytes, or all.
pub fn first(data: &[u8], count: usize) -> &[u8]
    ensures { result.now ≡ take count «data».now }
{
    &data[..count.min(data.len())]
}

// A picture in the Rust's mode, and in its order.
pub fn blue_first(width: usize, height: usize, is2bpp: bool) -> Picture
    ensures { result ≡ picture width height is2bpp mode.Rust order.BlueFirst }
{
    pvrtc::picture_of(
        width,
        height,
        is2bpp,
        GridMode::Rust,
        ChannelOrder::BlueFirst,
    )
}

// The bytes that a picture's grid needs, or 0 for a grid that no call takes.
pub fn need_of(p: Picture) -> usize
    ensures { result ≡ taken_need p }
{
    let g = pvrtc::grid_of(p);
    if g.across <= 65536 && g.down <= 65536 {
        grid::need_of(g)
    } else {
        0
    }
}

// The block call that is told the depth.
pub fn decode_told(data: &[u8], p: Picture, image: &mut [u32]) -> Result<(), Refusal>
    ensures { BlockDecoded p «data».now image.old image.new result }
{
    pvrtc::decode_pvrtc(data, p.width, p.height, image, p.is2bpp, p.mode, p.order)
}

// The block call that has the depth in its name.
pub fn decode_named(data: &[u8], p: Picture, image: &mut [u32]) -> Result<(), Refusal>
    ensures { BlockDecoded p «data».now image.old image.new result }
{
    if p.is2bpp {
        pvrtc::decode_pvrtc_2bpp(data, p.width, p.height, image, p.mode, p.order)
    } else {
        pvrtc::decode_pvrtc_4bpp(data, p.width, p.height, image, p.mode, p.order)
    }
}

// The plain form, as a function that can be passed on by its name: of one that `pub use` passes on from a private module the check finds no contract.
pub fn decode_plain(data: &[u8], p: Picture, image: &mut [u32]) -> Result<(), Refusal>
    ensures { BlockDecoded p «data».now image.old image.new result }
{
    pvrtc::decode_pvrtc_plain(data, p, image)
}
