// An I-VOP's header out of bits: its fields, and the quantiser that it makes of the one before it.
ghost use Rattle.std.specs.Prelude.{◌≡◌, ◌<◌};
ghost use Rattle.bits.specs.Bits.{bits_from};
ghost use Rattle.fields.specs.Inside.{Readable};
ghost use Rattle.headers.specs.Answer.{header_answer, header_told};
ghost use Rattle.headers.specs.Fields.{type_by};
ghost use Rattle.headers.specs.HeaderReader.{read_header};
ghost use Rattle.headers.specs.Inside.{PartsFine, fields_by};
ghost use Rattle.headers.specs.Outcomes.{header_read_due, header_read_outcome};

use crate::header::{DerivedMbType, MacroblockHeader};
use crate::parts::HeaderParts;
use assembly::BlockAssemblyError;
use bits::Cursor;

// The fields of a header, what dquant changes the quantiser by, 0 where there is none, and the quantiser after it.
#[derive(Clone, Copy)]
pub struct HeaderFields {
    pub header: MacroblockHeader,
    pub dquant_delta: i32,
    pub quantiser_scale: u32,
}

// The type of a row of mcbpc.
fn type_of(mcbpc: u32) -> DerivedMbType
    requires { mcbpc < 8 }
    ensures { result ≡ type_by mcbpc }
{
    if mcbpc < 4 {
        DerivedMbType::Intra
    } else {
        DerivedMbType::IntraQ
    }
}

// What the parts say, with the quantiser before them.
fn fields_of(p: HeaderParts, quantiser_scale: u32) -> HeaderFields
    requires { PartsFine p × (quantiser_scale < 32) }
    ensures { result ≡ fields_by p quantiser_scale }
{
    let mb_type = type_of(p.mcbpc);
    let changed = quantiser_scale as i32 + p.dquant_delta;
    HeaderFields {
        header: MacroblockHeader {
            not_coded: false,
            mb_type,
            cbpc: (p.mcbpc % 4) as u8,
            ac_pred_flag: p.ac_pred_flag == 1,
            cbpy: (p.cbpy % 16) as u8,
        },
        dquant_delta: p.dquant_delta,
        quantiser_scale: ranges::Quantiser::limited(changed),
    }
}

// Once the state is checked: the header at a cursor, one part after the other.
fn parse_plainly(
    data: &[u8],
    c: Cursor,
    quantiser_scale: u32,
) -> Result<(HeaderFields, Cursor), BlockAssemblyError>
    requires { Readable «data».now c × (quantiser_scale < 32) }
    ensures { result ≡ header_told «data».now quantiser_scale (read_header (bits_from «data».now c.bit_pos)) }
{
    let (p, next) = crate::parts::read_parts(data, c)?;
    let fields = fields_of(p, quantiser_scale);
    Ok((fields, next))
}

// The header at a cursor, with the quantiser before its change: 11, 12, then 1, 16, 17.
pub fn parse_macroblock_header(
    data: &[u8],
    c: Cursor,
    quantiser_scale: u32,
) -> Result<(HeaderFields, Cursor), BlockAssemblyError>
    ensures value { result ≡ header_answer «data».now c.bit_pos quantiser_scale }
    ensures outcome { header_read_outcome result ≡ header_read_due «data».now c.bit_pos quantiser_scale }
{
    if !fields::readable(data, c) {
        return Err(BlockAssemblyError::OutOfRange);
    }
    if !ranges::Quantiser::fine(quantiser_scale) {
        return Err(BlockAssemblyError::Context);
    }
    let one = crate::window::parts_at(data, c.bit_pos);
    if one.next == 0 {
        return parse_plainly(data, c, quantiser_scale);
    }
    let fields = fields_of(one.parts, quantiser_scale);
    Ok((fields, Cursor { bit_pos: one.next }))
}
