// Colours as lanes, and the three words of a column, summed downwards.
ghost use Rattle.std.specs.Prelude.{cond, ◌≡◌, ◌+◌, ◌*◌, ◌/◌, ◌%◌, ◌<◌, ◌≤◌, eqb, length, get_or};
ghost use Rattle.word.specs.Word.{color_of, blue_a, blue_b};
ghost use Rattle.lanes.specs.Lanes.{bytes, channel_lanes, color_lanes, widened, spread_of, fitted, mixed_lanes, shared, Mask};
ghost use Rattle.facts.specs.Tab.{tab};
ghost use Rattle.lanes.specs.BlockRow.{InData};
ghost use Rattle.lanes.specs.Column.{lanes_a, lanes_b, column_of, across, SmallColumn, SmallSums};

use crate::{Addresses, ColorLanes, Column, Sums};
use pixel::ChannelOrder;

const ONES: u64 = 0x0001000100010001;

const BYTES: u64 = 0x00ff00ff00ff00ff;

const TOP: u64 = 0xffff000000000000;

// Sums of shares over h, half a block's width, brought to 8 bits.
pub fn fit(h: u64, z: u64) -> u64
    requires { (0 < h) × (h ≤ 4) × (z ≤ 288230376151711744) }
    ensures { (result ≡ fitted h z) × (result ≤ bytes) }
{
    let t = z & (ONES * (65536 - h));
    (33 * t + (t & TOP)) / (32 * h) & BYTES
}

// The blend of two at the weight w, as a word.
pub fn mix(a: u64, b: u64, w: u64, keep: u64) -> u32
    requires { (a ≤ bytes) × (b ≤ bytes) × (w ≤ 15) × Mask keep }
    ensures { result ≡ mixed_lanes a b w keep }
{
    let t = ((b + 0x0800080008000800 - a) * w + 8 * a) / 8 & keep;
    (t % 4294967296 + t / 16777216) as u32
}

// By a bit, the one or the other. Compiled it is no branch, which no one could foresee from such bits.
pub fn pick(bit: bool, set: u64, clear: u64) -> u64
    ensures { result ≡ cond bit set clear }
{
    if bit { set } else { clear }
}

// Fields of four bits, five bits apart, each followed by its top bit.
fn widen(t: u64) -> u64
    requires { t ≤ 15855 }
    ensures { (result ≡ widened t) × (result < 32768) }
{
    2 * t + (t / 8 & 0x0421)
}

// By what blue and red are multiplied to stand in their lanes, ten bits too high.
fn spread_of(order: ChannelOrder) -> u64
    ensures { result ≡ spread_of order }
{
    match order {
        ChannelOrder::BlueFirst => 0x00010400,
        ChannelOrder::RedFirst => 0x04000001,
    }
}

// A colour's fields of five bits, blue, green and red from the low end, and its doubled alpha as lanes. The order is one factor, so neither
// takes longer.
fn in_lanes(fields: u64, alpha: u64, order: ChannelOrder) -> u64
    requires { (fields < 32768) × (alpha ≤ 30) }
    ensures { result ≡ channel_lanes order (fields % 32) (fields / 32 % 32) (fields / 1024) alpha }
{
    let apart = (fields & 0x7c1f) * spread_of(order) / 1024 & 0x001f001f;
    apart + 4294967296 * (fields / 32 % 32) + 281474976710656 * alpha
}

// The lanes of colour A, and of B, where these are the bits c. No twins: what they read of blue differs, and is most of either.
fn lane_a(c: u16, order: ChannelOrder) -> u64
    ensures { result ≡ color_lanes order (color_of c (blue_a c)) }
{
    let c = c as u64;
    let x = c % 32768 / 2 * 2 + c / 16 % 2;
    let y = widen(32 * (c / 16 % 16) + 1024 * (c / 256 % 16)) + (c / 2 % 8 * 4 + c / 4 % 4);
    let opaque = c / 32768 % 2 == 1;
    in_lanes(
        pick(opaque, x, y),
        pick(opaque, 30, c / 4096 % 8 * 4),
        order,
    )
}

fn lane_b(c: u16, order: ChannelOrder) -> u64
    ensures { result ≡ color_lanes order (color_of c (blue_b c)) }
{
    let c = c as u64;
    let y = widen(c % 16 + 32 * (c / 16 % 16) + 1024 * (c / 256 % 16));
    let opaque = c / 32768 % 2 == 1;
    in_lanes(
        pick(opaque, c % 32768, y),
        pick(opaque, 30, c / 4096 % 8 * 4),
        order,
    )
}

fn half(d: &[u8], at: usize) -> u16
    requires { at + 2 ≤ length d.now }
    ensures { result ≡ get_or d.now at 0 + 256 * get_or d.now (at + 1) 0 }
{
    u16::from_le_bytes([d[at], d[at + 1]])
}

// Both colours of word z.
fn colors_at(d: &[u8], z: usize, order: ChannelOrder) -> ColorLanes
    requires { 8 * z + 8 ≤ length d.now }
    ensures is { (result.a ≡ lanes_a order d.now z) × (result.b ≡ lanes_b order d.now z) }
    ensures small { (result.a ≤ 8725724278030336) × (result.b ≤ 8725724278030336) }
{
    ColorLanes {
        a: lane_a(half(d, 8 * z + 4), order),
        b: lane_b(half(d, 8 * z + 6), order),
    }
}

// Rows 0 to 3 of a block, in one colour, of the words above it, its own and below it.
fn downwards(above: u64, own: u64, below: u64) -> [u64; 4]
    requires { (above ≤ 8725724278030336) × (own ≤ 8725724278030336) × (below ≤ 8725724278030336) }
    ensures { result ≡ tab (λ y. shared 2 y above own below) 4 }
{
    [
        2 * above + 2 * own,
        above + 3 * own,
        4 * own,
        3 * own + below,
    ]
}

// A column's three words, summed. A struct of the bytes and the addresses, of which `InData` speaks, would be made anew for each column.
pub fn summed(d: &[u8], at: Addresses, order: ChannelOrder) -> Column
    requires { InData at (length d.now) }
    ensures { (result ≡ column_of order d.now at.above at.own at.below) × SmallColumn result }
{
    let above = colors_at(d, at.above, order);
    let own = colors_at(d, at.own, order);
    let below = colors_at(d, at.below, order);
    Column {
        a: downwards(above.a, own.a, below.a),
        b: downwards(above.b, own.b, below.b),
    }
}

impl Sums {
    // The sum of shares at place 0 of 2h.
    pub(crate) fn first(self, h: usize) -> u64
        requires { (h ≤ 4) × SmallSums self }
        ensures { result ≡ across h self 0 }
    {
        h as u64 * self.left + h as u64 * self.own
    }

    // From the one at place i to the one at the next place.
    pub(crate) fn step(self, h: usize, i: usize, sum: u64) -> u64
        requires h_bound { (h ≤ 4) × (i < 2 * h) × (sum ≡ across h self i) }
        requires small { SmallSums self }
        ensures { result ≡ across h self (i + 1) }
    {
        if i < h {
            sum + self.own - self.left
        } else {
            sum + self.right - self.own
        }
    }
}
