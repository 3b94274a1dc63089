// A texel as four channels, and as a word.
#![tactic(auto)]

ghost use Rattle.std.specs.Prelude.{◌≡◌};
ghost use Rattle.pixel.specs.Pixel.{word, packed};

// Which of a word's bytes are blue and red: the low and the third one, or the other way round. Green is the second and alpha the fourth.
#[derive(Clone, Copy, Debug, PartialEq, Eq)]
pub enum ChannelOrder {
    BlueFirst,
    RedFirst,
}

// Four bytes as a word, from the low end.
fn word_of(first: u8, second: u8, third: u8, fourth: u8) -> u32
    ensures { result ≡ word first second third fourth }
{
    u32::from_le_bytes([first, second, third, fourth])
}

// The word of a texel, in an order.
pub fn color(r: u8, g: u8, b: u8, a: u8, order: ChannelOrder) -> u32
    ensures { result ≡ packed order (record { r = r; g = g; b = b; a = a }) }
{
    match order {
        ChannelOrder::BlueFirst => word_of(b, g, r, a),
        ChannelOrder::RedFirst => word_of(r, g, b, a),
    }
}
