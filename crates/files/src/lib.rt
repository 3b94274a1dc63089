// What the readers of files share: a file's first bytes, its little-endian numbers and their bytes, and the face that they show to the program.
#![tactic(auto)]

ghost use Rattle.std.specs.Prelude.{◌≡◌, ℕ, ◌+◌, ◌<◌, get_or};
ghost use Rattle.files.specs.Fields.{u32_at, u64_at, byte_of, starts_with};
ghost use Rattle.files.specs.Reading.{fits_size};

// A plate as a file stores it, whatever kind of file that is.
#[derive(Clone, Copy)]
pub struct Stored {
    pub width: usize,
    pub height: usize,
    pub is2bpp: bool,
    // The bytes that are skipped between the header and the plate: metadata, or key/value bytes.
    pub skipped: usize,
    // Whether the file ends before what its kind has behind these.
    pub cut: bool,
    // The size that the file says the plate's data has, where its kind says one.
    pub size: Option<u32>,
    // Where the plate's data begins.
    pub payload: usize,
}

// Whether a file's first bytes are these.
pub fn starts_with(file: &[u8], bytes: &[u8]) -> bool
    ensures { result ≡ starts_with file.now bytes.now }
{
    file.starts_with(bytes)
}

// The N bytes from place `at` on; past the file's end, 0. Inside a caller that knows the file's length this is one load.
#[inline(always)]
fn bytes_at<const N: usize>(file: &[u8], at: usize) -> [u8; N]
    ensures { (k : ℕ) → k < N → get_or result k 0 ≡ get_or file.now (at + k) 0 }
{
    let rest = file.get(at..).unwrap_or(&[]);
    let mut bytes = [0; N];
    for (k, byte) in bytes.iter_mut().enumerate() {
        *byte = rest.get(k).copied().unwrap_or(0);
    }
    bytes
}

// The four bytes from place `at` on, little-endian.
#[inline(always)]
pub fn u32_at(file: &[u8], at: usize) -> u32
    ensures { (result ≡ u32_at file.now at) × (result < 4294967296) }
{
    u32::from_le_bytes(bytes_at(file, at))
}

// The eight bytes from place `at` on, little-endian.
#[inline(always)]
pub fn u64_at(file: &[u8], at: usize) -> u64
    ensures { result ≡ u64_at file.now at }
{
    u64::from_le_bytes(bytes_at(file, at))
}

// Byte k of a number, the lowest first; from the fifth on, 0.
pub fn byte_of(v: u32, k: usize) -> u8
    ensures { result ≡ byte_of v k }
{
    v.to_le_bytes().get(k).copied().unwrap_or(0)
}

// Whether a said size, if one is said, is this one.
pub fn fits_size(said: Option<u32>, need: usize) -> bool
    ensures { result ≡ fits_size said need }
{
    said.is_none_or(|n| n as usize == need)
}
