// The library for C: include/plate.h declares these functions, and each is `capi`'s of the same name.
#![tactic(auto)]

ghost use Rattle.std.specs.Prelude.{◌≡◌};
ghost use Rattle.capi.specs.Plate.{order_of, plate, texel_answer, WroteRow, WrotePicture, header_field};
ghost use Rattle.capi.specs.Ktx.{ktx_field, WroteKtx};
ghost use Rattle.capi.specs.Level.{level_field, WroteLevel};

// Texel (x, y): its word in the low 32 bits, the refusal's number above.
#[unsafe(no_mangle)]
pub extern "C" fn plate_texel(
    data: &[u8],
    width: u64,
    height: u64,
    depth: u32,
    mode: u32,
    order: u32,
    x: u64,
    y: u64,
) -> u64
    ensures { result ≡ texel_answer (plate width height depth mode order) «data».now x y }
{
    capi::plate_texel(data, width, height, depth, mode, order, x, y)
}

// Row y into lent words.
#[unsafe(no_mangle)]
pub extern "C" fn plate_row(
    data: &[u8],
    width: u64,
    height: u64,
    depth: u32,
    mode: u32,
    order: u32,
    y: u64,
    row: &mut [u32],
) -> u64
    ensures { WroteRow (plate width height depth mode order) «data».now y row.old row.new result }
{
    capi::plate_row(data, width, height, depth, mode, order, y, row)
}

// The whole picture into lent words.
#[unsafe(no_mangle)]
pub extern "C" fn plate_picture(
    data: &[u8],
    width: u64,
    height: u64,
    depth: u32,
    mode: u32,
    order: u32,
    image: &mut [u32],
) -> u64
    ensures { WrotePicture (plate width height depth mode order) «data».now image.old image.new result }
{
    capi::plate_picture(data, width, height, depth, mode, order, image)
}

// A field of a PVR file's header.
#[unsafe(no_mangle)]
pub extern "C" fn plate_header(file: &[u8], field: u32) -> u64
    ensures { result ≡ header_field file.now field }
{
    capi::plate_header(file, field)
}

// A field of a KTX file's header.
#[unsafe(no_mangle)]
pub extern "C" fn plate_ktx(file: &[u8], field: u32) -> u64
    ensures { result ≡ ktx_field file.now field }
{
    capi::plate_ktx(file, field)
}

// The picture of a KTX file into lent words.
#[unsafe(no_mangle)]
pub extern "C" fn plate_ktx_picture(file: &[u8], order: u32, image: &mut [u32]) -> u64
    ensures { WroteKtx (order_of order) file.now image.old image.new result }
{
    capi::plate_ktx_picture(file, order, image)
}

// A field of a level of a PVR or a KTX file.
#[unsafe(no_mangle)]
pub extern "C" fn plate_level_field(file: &[u8], level: u64, field: u32) -> u64
    ensures { result ≡ level_field file.now level field }
{
    capi::plate_level_field(file, level, field)
}

// A level of a PVR or a KTX file into lent words.
#[unsafe(no_mangle)]
pub extern "C" fn plate_level(file: &[u8], level: u64, order: u32, image: &mut [u32]) -> u64
    ensures { WroteLevel (order_of order) file.now level image.old image.new result }
{
    capi::plate_level(file, level, order, image)
}
