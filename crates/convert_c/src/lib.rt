// What the program `plate` writes for a file, for C: `convert`'s function of the same name.
#![tactic(auto)]

ghost use Rattle.convert.specs.Output.{ConvertedInRoom};

// Lays what is to be written for a file in front of `out`, and says how many bytes that is; with too little room for some file 0, and nothing is written.
#[unsafe(no_mangle)]
pub extern "C" fn plate_convert(file: &[u8], image: &mut [u32], out: &mut [u8]) -> usize
    ensures { ConvertedInRoom file.now image.old image.new out.old out.new result }
{
    convert::plate_convert(file, image, out)
}
