// The DC part of a block (7.4.1.1): a code of its size, that many bits, and a marker above size 8.
ghost use Rattle.std.specs.Prelude.{◌≡◌, ◌<◌, ◌≤◌, ◌^◌};
ghost use Rattle.bits.specs.Bits.{bits_from};
ghost use Rattle.dc_parts.specs.Dc.{differential_of};
ghost use Rattle.dc_parts.specs.DcReader.{dc_tail};
ghost use Rattle.dc_parts.specs.Answer.{dc_answer};
ghost use Rattle.dc_parts.specs.Outcomes.{dc_due, dc_outcome};
ghost use Rattle.fields.specs.Inside.{Readable, SaysNumber};

use bits::Cursor;
use codes::DcComponent;
use fields::{CodeKind, TextureParseError};

// A DC size and the difference of levels that follows it.
#[derive(Clone, Copy)]
pub struct IntraDcDifferential {
    pub size: u32,
    pub differential: i32,
}

// Table B.15: the difference of `size` bits.
fn decode_differential(size: u32, additional: u32) -> i32
    requires { (size ≤ 12) × (additional < 2 ^ size) }
    ensures { result ≡ differential_of size additional }
{
    if size == 0 {
        return 0;
    }
    let half_range = 1u32 << (size - 1);
    if half_range <= additional {
        additional as i32
    } else {
        (additional as i32) + 1 - 2 * (half_range as i32)
    }
}

// The `size` bits after the code, and the marker.
fn read_additional(data: &[u8], c: Cursor, size: u32) -> Result<(u32, Cursor), TextureParseError>
    requires { Readable «data».now c × (size ≤ 12) }
    ensures { SaysNumber «data».now result (dc_tail size (bits_from «data».now c.bit_pos)) }
{
    let (a, next) = fields::read_field(data, c, size as usize)?;
    if size <= 8 {
        return Ok((a, next));
    }
    let missing = TextureParseError::MarkerBitMissing;
    let (_, after) = fields::read_marker(data, next, missing)?;
    Ok((a, after))
}

// The DC part at a cursor.
pub fn decode_intra_dc(
    data: &[u8],
    c: Cursor,
    component: DcComponent,
) -> Result<(IntraDcDifferential, Cursor), TextureParseError>
    ensures value { result ≡ dc_answer «data».now c.bit_pos component }
    ensures outcome { dc_outcome result ≡ dc_due «data».now c.bit_pos component }
{
    let codes = codes::dc_size_codes(component);
    let lens = codes::dc_size_lens(component);
    let (size, next) = fields::read_code(data, c, &codes, &lens, 13, 13, CodeKind::DcSize)?;
    let (a, after) = read_additional(data, next, size)?;
    let differential = decode_differential(size, a);
    Ok((IntraDcDifferential { size, differential }, after))
}
