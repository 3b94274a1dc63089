// Reads a PVR or KTX file on standard input, and writes its picture as a TGA on standard output, or the line of a refusal.
#![tactic(auto)]

ghost use Rattle.std.specs.Prelude.{◌≡◌, ◌-◌, ◌<◌, ◌≤◌, length, take, drop, IfSome, IfOk, IfErr, OnOk};
ghost use Rattle.std.specs.Io.KnownBytes.{Appends, Consumes};
ghost use Rattle.convert.specs.Output.{Room, output, read_limit};
ghost use Rattle.plate.specs.Input.{meant, Within, Took, Stopped, Answers, IsUnread, KeptIfUnread};

use convert::{IMAGE_WORDS, OUT_BYTES};
use std::{fmt, io};

// Of a KTX file 64 + 4,096 + 4 + 32,768 bytes can matter, of a PVR file fewer; later ones are left unread.
const READ_LIMIT: usize = 36932;

// Why nothing is written, or not all of it.
#[derive(Clone, Copy)]
enum Failure {
    Unread,
    Unwritten,
}

impl fmt::Display for Failure {
    fn fmt<W: fmt::Write>(&self, f: &mut fmt::Formatter<W>) -> fmt::Result {
        match self {
            Failure::Unread => write!(f, "standard input could not be read"),
            Failure::Unwritten => write!(f, "standard output could not be written"),
        }
    }
}

// What an answer of std's `read` means: so many bytes, or at 0 that the input has ended. It is no `From`, since docs/PROGRAM.md names its definition.
fn meaning(got: io::Result<usize>) -> Result<Option<usize>, Failure>
    ensures { result ≡ meant got }
{
    match got {
        Ok(0) => Ok(None),
        Ok(n) => Ok(Some(n)),
        Err(_) => Err(Failure::Unread),
    }
}

// One read into buf: how many bytes it gave, or that the input has ended.
fn read_some<R: io::Read>(from: &mut R, buf: &mut [u8]) -> Result<Option<usize>, Failure>
    ensures bound { Within result (length buf.new) }
    ensures took { 0 < length buf.new → Took (R.remaining from.old) (R.remaining from.new) buf.new result }
{
    meaning(from.read(buf))
}

// One read into buf from place `at` on, where there is room: into no room at all, 0 bytes would not mean the end.
fn read_at<R: io::Read>(from: &mut R, buf: &mut [u8], at: usize) -> Result<Option<usize>, Failure>
    requires { at < length buf.old }
    ensures bound { Within result (length buf.new - at) }
    ensures took { Took (R.remaining from.old) (R.remaining from.new) (drop at buf.new) result }
    ensures front { take at buf.new ≡ take at buf.old }
{
    read_some(from, &mut buf[at..])
}

// Reads until buf is full or the input ends: how many bytes stand in it.
fn read_input<R: io::Read>(from: &mut R, buf: &mut [u8]) -> Result<usize, Failure>
    requires { length buf.old ≡ read_limit }
    ensures stopped { IfOk result (λ count. Stopped count (R.remaining from.new)) }
    ensures took { IfOk result (λ count. Consumes (R.remaining from.old) (R.remaining from.new) (take count buf.new)) }
    ensures failed { IfErr result IsUnread }
{
    // std's `read_exact` would not say how many bytes came before the end.
    let mut count = 0;
    while count < buf.len() {
        let Some(n) = read_at(from, buf, count)? else {
            return Ok(count);
        };
        count += n;
    }
    Ok(count)
}

// Lays what is to be written for the first n bytes of the input in front of `out`, and says how many bytes that is.
fn answer(input: &[u8], n: usize, image: &mut [u32], out: &mut [u8]) -> usize
    requires input_len { n ≤ length input.now }
    requires room { Room (length image.old) (length out.old) }
    ensures { Answers (take n input.now) out.new result }
{
    convert::convert(&input[..n], image, out)
}

// Writes what is to be written for all that is read. The arrays are lent whole: where they are made, a proof would count them through.
fn run<R: io::Read, W: io::Write>(
    from: &mut R,
    to: &mut W,
    input: &mut [u8; READ_LIMIT],
    image: &mut [u32; IMAGE_WORDS],
    out: &mut [u8; OUT_BYTES],
) -> Result<(), Failure>
    ensures whole { OnOk result (IfSome (R.remaining from.old) (λ file. Appends (W.contents to.old) (W.contents to.new) (output file))) }
    ensures unread { IfErr result (KeptIfUnread to.old to.new) }
{
    let n = read_input(from, input)?;
    let m = answer(input, n, image, out);
    to.write_all(&out[..m]).map_err(|_| Failure::Unwritten)
}

fn main(rt: HostRuntime) {
    let mut input = [0u8; READ_LIMIT];
    let mut image = [0u32; IMAGE_WORDS];
    let mut out = [0u8; OUT_BYTES];
    let mut from = rt.stdin();
    let mut to = io::writer(&rt);
    if let Err(failure) = run(&mut from, &mut to, &mut input, &mut image, &mut out) {
        let _ = eprintln!(rt; "plate: {failure}");
    }
}
