// What the programs of the gate share that replay whole files: what a file is refused for, what a stored plate needs, and what the program
// `plate` writes.
#![tactic(auto)]

mod fault;

ghost use Rattle.std.specs.Prelude.{◌≡◌, Some};
ghost use Rattle.std.specs.Fn.{FnOnceReturnsAt};
ghost use Rattle.convert.specs.Output.{output};
ghost use Rattle.pixel.specs.declared.ChannelOrder.TheVariants as order;
ghost use Rattle.pvrtc.specs.Picture.{picture};
ghost use Rattle.pvrtc.specs.declared.GridMode.TheVariants as mode;
ghost use Rattle.listing.specs.Names.{taken_need};
ghost use Rattle.replayed.specs.Texts.{output_text};

use convert::{IMAGE_WORDS, OUT_BYTES};
pub use fault::Fault;
use pixel::ChannelOrder;
use pvrtc::GridMode;
use std::{fmt, str};

// What the program writes, in words: a refusal's line as it is; of a picture, how many bytes and their checksum.
#[derive(Clone, Copy)]
pub struct Output<'a>(pub &'a [u8]);

impl fmt::Display for Output<'_> {
    ghost output = { λ o. Some (output_text o.0.now) };

    fn fmt<W: fmt::Write>(&self, f: &mut fmt::Formatter<W>) -> fmt::Result {
        match str::from_utf8(self.0) {
            Ok(line) if line.len() < 12 => f.write_str(line),
            _ => {
                let (count, sum) = (self.0.len(), samples::sum_of_bytes(self.0));
                writeln!(f, "{count} bytes, sum {sum}")
            }
        }
    }
}

// Lends what the program writes for a file.
pub fn with_output<R, F: FnOnce(&[u8]) -> R>(file: &[u8], lend: F) -> R
    requires { F.IsAlwaysCallable lend }
    ensures { FnOnceReturnsAt F.FnOnce lend (output file.now) result }
{
    let mut image = [0; IMAGE_WORDS];
    let mut out = [0; OUT_BYTES];
    lend(convert_into(file, &mut image, &mut out))
}

// The same, into arrays that are lent whole: where they are made, a proof would count them through.
fn convert_into<'a>(
    file: &[u8],
    image: &mut [u32; IMAGE_WORDS],
    out: &'a mut [u8; OUT_BYTES],
) -> &'a [u8]
    ensures { result.now ≡ output file.now }
{
    let count = convert::convert(file, image, out);
    &out[..count]
}

// The bytes that a stored plate needs, or 0 where its grid has more blocks one way than any call takes.
pub fn stored_need(width: u32, height: u32, is2bpp: bool) -> usize
    ensures { result ≡ taken_need (picture width height is2bpp mode.Stored order.BlueFirst) }
{
    listing::need_of(pvrtc::picture_of(
        width as usize,
        height as usize,
        is2bpp,
        GridMode::Stored,
        ChannelOrder::BlueFirst,
    ))
}
