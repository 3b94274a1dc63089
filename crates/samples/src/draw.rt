// Bytes and words drawn by a generator whose state has 31 bits, of which the upper sixteen are used.
ghost use Rattle.std.specs.Prelude.{cond, ◌≡◌, ◌+◌, ◌*◌, ◌/◌, ◌%◌, eqb, length};
ghost use Rattle.samples.specs.Draw.{stepped, drawn_byte, byte_of, drawn_word, word_of, Drawn};

// A step of the generator.
fn step(state: u64) -> u64
    ensures { result ≡ stepped state }
{
    (state % 2147483648 * 1103515245 + 12345) % 2147483648
}

// The state that byte i is taken from, two bytes a step.
fn step_before(state: u64, i: usize) -> u64
    ensures { result ≡ cond (eqb (i % 2) 0) (stepped state) state }
{
    if i % 2 == 0 { step(state) } else { state }
}

// Byte i: the lower or the upper of the two drawn.
fn byte_of(state: u64, i: usize) -> u8
    ensures { result ≡ byte_of state i }
{
    if i % 2 == 0 {
        (state / 32768 % 256) as u8
    } else {
        (state / 8388608 % 256) as u8
    }
}

// The word of two states, the lower half first.
fn word_of(low: u64, high: u64) -> u32
    ensures { result ≡ word_of low high }
{
    (low / 32768 % 65536 + high / 32768 % 65536 * 65536) as u32
}

// Draws all bytes, two a step. The answer is the generator's state afterwards.
pub fn draw_bytes(bytes: &mut [u8], state: u64) -> u64
    ensures { Drawn drawn_byte state ((length bytes.old + 1) / 2) bytes.old bytes.new result }
{
    let mut reached = state;
    for (i, byte) in bytes.iter_mut().enumerate() {
        reached = step_before(reached, i);
        *byte = byte_of(reached, i);
    }
    reached
}

// Draws all words, each in two steps, likewise.
pub fn draw_words(words: &mut [u32], state: u64) -> u64
    ensures { Drawn drawn_word state (2 * length words.old) words.old words.new result }
{
    let mut reached = state;
    for word in words.iter_mut() {
        let low = step(reached);
        reached = step(low);
        *word = word_of(low, reached);
    }
    reached
}
