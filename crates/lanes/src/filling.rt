// Rows of weights at 2bpp, as they are stored and as they are filled.
ghost use Rattle.std.specs.Prelude.{true, false, cond, ◌≡◌, ◌+◌, ◌*◌, ◌/◌, ◌<◌, ◌≤◌, eqb, length, get_or};
ghost use Rattle.lanes.specs.Column.{word_at};
ghost use Rattle.lanes.specs.BlockRow.{InData};
ghost use Rattle.lanes.specs.Block2bpp.{bit_row, code_row, byte_row, weight_row, weight_rows, fill_rule_of, filled_row, filled_rows, LowRow, LowRows};
ghost use Rattle.lanes.specs.Block2bpp.{weight_meaning, FewTimes, LowRule};
ghost use Rattle.std.proofs.Common.{refl};

use crate::colors::pick;
use crate::modulation::{KEPT, Modulation, mode_at};
use crate::{Addresses, FillRule, Meaning, Weights};

// A byte's bits as weights of 0 and 8.
fn bits_row(b: u8) -> u64
    ensures { (result ≡ bit_row b) × (result ≤ 0x0808080808080808) }
{
    ((b as u64 * 0x0101010101010101 & 0x8040201008040201) + 0x00406070787c7e7f) / 16
        & 0x0808080808080808
}

// A byte's codes as weights, at every other place.
fn codes_row(b: u8) -> u64
    ensures { (result ≡ code_row b) × (result ≤ 0x0008000800080008) }
{
    let v = b as u64 * 0x0000040010004001;
    3 * (v & 0x0001000100010001) + 5 * ((v & 0x0002000200020002) / 2)
}

// In mode 1 the one, else the other.
fn spread_row(b: u8, mode: bool) -> u64
    ensures { (result ≡ cond mode (code_row b) (bit_row b)) × (result ≤ 0x0808080808080808) }
{
    pick(mode, codes_row(b), bits_row(b))
}

// A weight that gives up a bit of its code. 0 and 8 stay as they are.
fn adjust(x: u64) -> u64
    requires { x < 256 }
    ensures { (result ≡ (x + 3) / 8 * 8) × (result ≤ 256) }
{
    (x + 3) / 8 * 8
}

// Row 0 of a word: its first weight gives up a bit.
fn first_row(b: u8, mode: bool) -> u64
    ensures { result ≡ byte_row mode 0 false b }
{
    let v = spread_row(b, mode);
    v / 256 * 256 + adjust(v % 256)
}

// Rows 1 and 3.
fn odd_row(b: u8, mode: bool) -> u64
    ensures { result ≡ byte_row mode 1 false b }
{
    pick(mode, codes_row(b) * 256, bits_row(b))
}

// Row 2: its fifth weight gives up a bit where the modulation's bit 0 is set.
fn third_row(b: u8, mode: bool, bit: bool) -> u64
    ensures { result ≡ byte_row mode 2 bit b }
{
    let v = spread_row(b, mode);
    let x = v / 4294967296 % 256;
    v - x * 4294967296 + pick(bit, adjust(x), x) * 4294967296
}

// The four rows of word z.
fn read_rows(d: &[u8], z: usize) -> Weights
    requires { 8 * z + 8 ≤ length d.now }
    ensures { (result ≡ weight_rows (word_at d.now z)) × LowRows result }
{
    let at = 8 * z;
    let mode = mode_at(d, z);
    Weights {
        rows: [
            first_row(d[at], mode),
            odd_row(d[at + 1], mode),
            third_row(d[at + 2], mode, d[at] % 2 == 1),
            odd_row(d[at + 3], mode),
        ],
    }
}

// How the block of a column's own word is filled, by its three words: of the outer two it reads the rows over the edges, row 3 of the word above
// and row 0 of the word below.
fn read_rule(d: &[u8], at: Addresses) -> FillRule
    requires { InData at (length d.now) }
    ensures { (result ≡ fill_rule_of (word_at d.now at.above) (word_at d.now at.own) (word_at d.now at.below)) × LowRule result }
{
    let own = 8 * at.own;
    let bit = (d[own] % 2) as u64;
    let high = (d[own + 2] / 16 % 2) as u64;
    FillRule {
        above: odd_row(d[8 * at.above + 3], mode_at(d, at.above)),
        below: first_row(d[8 * at.below], mode_at(d, at.below)),
        mode: mode_at(d, at.own),
        beside: 1 + bit - 2 * bit * high,
        upright: 1 - bit + 2 * bit * high,
    }
}

// One row, filled; left and right are the rows of the blocks to either side.
fn fill_row(
    rule: FillRule,
    keep: u64,
    left: u64,
    own: u64,
    right: u64,
    above: u64,
    below: u64,
) -> u64
    requires few_times { FewTimes rule × (keep ≤ 0x0f0f0f0f0f0f0f0f) }
    requires low_row { LowRow left × LowRow own × LowRow right × LowRow above × LowRow below }
    ensures { result ≡ filled_row rule keep left own right above below }
{
    let before = own % 72057594037927936 * 256 + left / 72057594037927936;
    let both = before + (own / 256 + right % 256 * 72057594037927936);
    own + ((rule.beside * both + rule.upright * (above + below) + 0x0202020202020202) / 4 & keep)
}

const ODDS: u64 = 0x0f000f000f000f00;

const EVENS: u64 = 0x000f000f000f000f;

// The four rows of a block, filled; left and right are the blocks to either side.
fn fill_rows(left: Weights, own: Weights, right: Weights, rule: FillRule) -> Weights
    requires { LowRows left × LowRows own × LowRows right × LowRule rule }
    ensures { result ≡ filled_rows left own right rule }
{
    let odds = pick(rule.mode, ODDS, 0);
    let evens = pick(rule.mode, EVENS, 0);
    let l = left.rows;
    let o = own.rows;
    let r = right.rows;
    Weights {
        rows: [
            fill_row(rule, odds, l[0], o[0], r[0], rule.above, o[1]),
            fill_row(rule, evens, l[1], o[1], r[1], o[0], o[2]),
            fill_row(rule, odds, l[2], o[2], r[2], o[1], o[3]),
            fill_row(rule, evens, l[3], o[3], r[3], o[2], rule.below),
        ],
    }
}

impl Modulation for Weights {
    type Row = u64;

    const HALF: usize = 4;

    ghost HALF = { 4 };

    ghost two = { true };

    ghost stored = { weight_rows };

    ghost Good = { LowRows };

    ghost row_of = { λ k y. get_or k.rows y 0 };

    ghost says = { weight_meaning };

    fn read(d: &[u8], z: usize) -> Weights {
        read_rows(d, z)
    }

    fn fill(left: Weights, own: Weights, right: Weights, d: &[u8], at: Addresses) -> Weights {
        fill_rows(left, own, right, read_rule(d, at))
    }

    fn row(self, j: usize) -> u64 {
        self.rows[j]
    }

    fn meaning(row: u64, i: usize) -> Meaning {
        Meaning {
            weight: (row >> (8 * i)) % 16,
            keep: KEPT,
        }
    }

    ghost half_is = { refl };
}
