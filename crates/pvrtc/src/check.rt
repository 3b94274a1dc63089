// The refusals of a call, in their order.
ghost use Rattle.std.specs.Prelude.{◌≡◌, false};
ghost use Rattle.pvrtc.specs.Refusals.{zero_side, large_side, short_data, short_image, not_power, outside, number_of, Says, size_checks, checks};
ghost use Rattle.pvrtc.specs.Numbers.{number-above, same-refusal};

use crate::layout::grid_of;
use crate::{Call, Picture, Refusal};
use facts::{Numbered, refuse_if};

// Document 01's number of a refusal.
impl Numbered for Refusal {
    ghost number = { number_of };

    fn number(self) -> u64 {
        match self {
            Refusal::ZeroSide => 1,
            Refusal::LargeSide => 2,
            Refusal::ShortData => 3,
            Refusal::ShortImage => 4,
            Refusal::NotPowerOfTwo => 5,
            Refusal::Outside => 6,
        }
    }

    ghost above_zero = { number-above };

    ghost one_to_one = { same-refusal };
}

// Whether a side is 0.
pub fn has_zero_side(p: Picture) -> bool
    ensures { result ≡ zero_side p }
{
    p.width == 0 || p.height == 0
}

fn has_large_side(p: Picture) -> bool
    ensures { result ≡ large_side p }
{
    p.width > 65536 || p.height > 65536
}

fn has_short_data(p: Picture, len: usize) -> bool
    requires { large_side p ≡ false }
    ensures { result ≡ short_data p len }
{
    len < grid::need_of(grid_of(p))
}

fn has_short_image(p: Picture, call: Call) -> bool
    requires { large_side p ≡ false }
    ensures { result ≡ short_image p call }
{
    match call {
        Call::Texel { .. } => false,
        Call::Row { room, .. } => room < p.width,
        Call::Block { room } => room < p.width * p.height,
    }
}

fn has_no_power(p: Picture) -> bool
    ensures { result ≡ not_power p }
{
    let g = grid_of(p);
    !grid::is_power_of_two(g.across) || !grid::is_power_of_two(g.down)
}

fn is_outside(p: Picture, call: Call) -> bool
    ensures { result ≡ outside p call }
{
    match call {
        Call::Texel { x, y } => x >= p.width || y >= p.height,
        Call::Row { y, .. } => y >= p.height,
        Call::Block { .. } => false,
    }
}

// The refusals of a picture's sizes, which come first in every call.
pub fn check_sizes(p: Picture) -> Result<(), Refusal>
    ensures { Says result (size_checks p) }
{
    refuse_if(has_zero_side(p), Refusal::ZeroSide)?;
    refuse_if(has_large_side(p), Refusal::LargeSide)
}

// The first refusal of a call on `len` bytes whose condition holds.
pub fn check(p: Picture, call: Call, len: usize) -> Result<(), Refusal>
    ensures { Says result (checks p call len) }
{
    check_sizes(p)?;
    refuse_if(has_short_data(p, len), Refusal::ShortData)?;
    refuse_if(has_short_image(p, call), Refusal::ShortImage)?;
    refuse_if(has_no_power(p), Refusal::NotPowerOfTwo)?;
    refuse_if(is_outside(p, call), Refusal::Outside)
}
