// What programs of the gate share: files laid in memory, drawn bytes and words, and checksums of what comes of them.
#![tactic(auto)]

mod draw;

ghost use Rattle.std.specs.Prelude.{◌≡◌, ◌+◌, ◌*◌, ◌%◌, ◌<◌, length, set};
ghost use Rattle.facts.specs.Tab.{tab};
ghost use Rattle.samples.specs.File.{file_byte, with_u32};
ghost use Rattle.samples.specs.Sums.{checksum};

pub use draw::{draw_bytes, draw_words};

// Lays a sample file: the numbers of its header, four bytes each, the lowest first, and behind them bytes by a rule.
pub fn lay_file(header: &[u32], bytes: &mut [u8])
    ensures { bytes.new ≡ tab (file_byte header.now) (length bytes.old) }
{
    for (k, byte) in bytes.iter_mut().enumerate() {
        *byte = file_byte(header, k);
    }
}

fn file_byte(header: &[u32], k: usize) -> u8
    ensures { result ≡ file_byte header.now k }
{
    match header.get(k / 4) {
        Some(number) => files::byte_of(*number, k % 4),
        None => ((37 * (k % 251) + 11) % 251) as u8,
    }
}

// Puts the four bytes of a number at `at`, as far as there are places for them.
pub fn set_u32(bytes: &mut [u8], at: u32, v: u32)
    ensures { bytes.new ≡ with_u32 at v bytes.old }
{
    for (k, byte) in v.to_le_bytes().iter().enumerate() {
        set_byte(bytes, at as usize + k, *byte);
    }
}

// Puts a byte at place i, if there is one.
fn set_byte(bytes: &mut [u8], i: usize, v: u8)
    ensures { bytes.new ≡ set bytes.old i v }
{
    // not by `get_mut`: of the slice that it lends from, the library says nothing afterwards
    if i < bytes.len() {
        bytes[i] = v;
    }
}

// The checksum `sum` with a number more: that is added to TIMES times the sum, modulo PRIME.
fn with_number<const TIMES: u64, const PRIME: u64>(sum: u64, number: u32) -> u64
    requires { (0 < PRIME) × (PRIME * TIMES + 4294967296 < 18446744073709551616) }
    ensures { result ≡ (sum % PRIME * TIMES + number) % PRIME }
{
    (sum % PRIME * TIMES + u64::from(number)) % PRIME
}

// The checksum of bytes.
pub fn sum_of_bytes(bytes: &[u8]) -> u64
    ensures { result ≡ checksum 31 2147483647 bytes.now (length bytes.now) }
{
    let mut sum = 0;
    for byte in bytes {
        sum = with_number::<31, 2147483647>(sum, u32::from(*byte));
    }
    sum
}

// The checksum of words.
pub fn sum_of_words(words: &[u32]) -> u64
    ensures { result ≡ checksum 1103515245 8589934583 words.now (length words.now) }
{
    let mut sum = 0;
    for word in words {
        sum = with_number::<1103515245, 8589934583>(sum, *word);
    }
    sum
}
