// The parts of an I-VOP's header, one after the other (6.2.6).
ghost use Rattle.std.specs.Prelude.{◌≡◌, ◌<◌};
ghost use Rattle.bits.specs.Bits.{bits_from};
ghost use Rattle.codes.specs.Header.{cbpy_codes, cbpy_lens, mcbpc_codes, mcbpc_lens};
ghost use Rattle.fields.specs.Answer.{code_answer, field_answer};
ghost use Rattle.fields.specs.Inside.{Readable, SaysNumber, invalid};
ghost use Rattle.fields.specs.Reader.{field, mapped};
ghost use Rattle.fields.specs.declared.code.CodeKind.TheVariants.{Header};
ghost use Rattle.sentences.specs.ComposeReader.{read_opt};
ghost use Rattle.headers.specs.Fields.{delta_by};
ghost use Rattle.headers.specs.Header.{changes_at, row_of};
ghost use Rattle.headers.specs.HeaderReader.{read_header, read_mcbpc, read_rest};
ghost use Rattle.headers.specs.Inside.{SaysParts, parts_by, parts_of, with_rest};

use bits::Cursor;
use fields::{CodeKind, TextureParseError};

// The rows of mcbpc and cbpy, ac_pred_flag, and what dquant changes the quantiser by: 0 where there is none.
#[derive(Clone, Copy)]
pub struct HeaderParts {
    pub mcbpc: u32,
    pub ac_pred_flag: u32,
    pub cbpy: u32,
    pub dquant_delta: i32,
}

// A code of mcbpc or stuffing: its row.
fn mcbpc_plainly(data: &[u8], c: Cursor) -> Result<(u32, Cursor), TextureParseError>
    ensures { result ≡ code_answer «data».now c.bit_pos mcbpc_codes mcbpc_lens 9 9 (invalid Header) }
{
    let codes = codes::mcbpc_codes();
    let lens = codes::mcbpc_lens();
    fields::read_code(data, c, &codes, &lens, 9, 9, CodeKind::Header)
}

// The same by six bits, where they tell it.
fn read_mcbpc(data: &[u8], c: Cursor) -> Result<(u32, Cursor), TextureParseError>
    ensures { result ≡ code_answer «data».now c.bit_pos mcbpc_codes mcbpc_lens 9 9 (invalid Header) }
{
    if !fields::readable(data, c) {
        return Err(TextureParseError::OutOfRange);
    }
    let at = c.bit_pos;
    let e = codes::mcbpc_short(bits::ahead(data, at));
    let next = at + (e % 16) as usize;
    if e == 0 || 8 * data.len() < next {
        return mcbpc_plainly(data, c);
    }
    Ok((e / 16, Cursor { bit_pos: next }))
}

// A code of cbpy: its row.
fn cbpy_plainly(data: &[u8], c: Cursor) -> Result<(u32, Cursor), TextureParseError>
    ensures { result ≡ code_answer «data».now c.bit_pos cbpy_codes cbpy_lens 6 16 (invalid Header) }
{
    let codes = codes::cbpy_codes();
    let lens = codes::cbpy_lens();
    fields::read_code(data, c, &codes, &lens, 6, 16, CodeKind::Header)
}

// The same by six bits, where they tell it.
fn read_cbpy(data: &[u8], c: Cursor) -> Result<(u32, Cursor), TextureParseError>
    ensures { result ≡ code_answer «data».now c.bit_pos cbpy_codes cbpy_lens 6 16 (invalid Header) }
{
    if !fields::readable(data, c) {
        return Err(TextureParseError::OutOfRange);
    }
    let at = c.bit_pos;
    let e = codes::cbpy_short(bits::ahead(data, at));
    let next = at + (e % 16) as usize;
    if e == 0 || 8 * data.len() < next {
        return cbpy_plainly(data, c);
    }
    Ok((e / 16, Cursor { bit_pos: next }))
}

// The row of mcbpc after any number of stuffing codes, each of nine bits.
fn read_type(data: &[u8], c: Cursor) -> Result<(u32, Cursor), TextureParseError>
    requires { Readable «data».now c }
    ensures { SaysNumber «data».now result (mapped row_of (read_mcbpc (bits_from «data».now c.bit_pos))) }
{
    let mut at = c;
    loop {
        let (row, next) = read_mcbpc(data, at)?;
        if row < 8 {
            return Ok((row, next));
        }
        at = next;
    }
}

// ac_pred_flag: the next bit.
fn read_flag(data: &[u8], c: Cursor) -> Result<(u32, Cursor), TextureParseError>
    ensures { result ≡ field_answer «data».now c.bit_pos 1 }
{
    if !fields::readable(data, c) {
        return Err(TextureParseError::OutOfRange);
    }
    let at = c.bit_pos;
    if 8 * data.len() <= at {
        return Err(TextureParseError::Truncated);
    }
    let flag = bits::ahead(data, at) / 2147483648 % 2;
    Ok((flag, Cursor { bit_pos: at + 1 }))
}

// Table 6-32: what two bits of dquant change the quantiser by.
pub(crate) fn dquant_value(code: u32) -> i32
    requires { code < 4 }
    ensures { result ≡ delta_by code }
{
    match code {
        0 => -1,
        1 => -2,
        2 => 1,
        _ => 2,
    }
}

// dquant, where the row of mcbpc has one.
fn read_dquant(
    data: &[u8],
    c: Cursor,
    mcbpc: u32,
    ac_pred_flag: u32,
    cbpy: u32,
) -> Result<(HeaderParts, Cursor), TextureParseError>
    requires { Readable «data».now c × (mcbpc < 8) }
    ensures { SaysParts «data».now result (mapped (parts_by mcbpc ac_pred_flag cbpy) (read_opt (changes_at mcbpc) (field 2) (bits_from «data».now c.bit_pos))) }
{
    let mut parts = HeaderParts {
        mcbpc,
        ac_pred_flag,
        cbpy,
        dquant_delta: 0,
    };
    if mcbpc < 4 {
        return Ok((parts, c));
    }
    let (code, next) = fields::read_field(data, c, 2)?;
    parts.dquant_delta = dquant_value(code);
    Ok((parts, next))
}

// What follows mcbpc.
fn read_rest(data: &[u8], c: Cursor, mcbpc: u32) -> Result<(HeaderParts, Cursor), TextureParseError>
    requires { Readable «data».now c × (mcbpc < 8) }
    ensures { SaysParts «data».now result (mapped (with_rest mcbpc) (read_rest (changes_at mcbpc) (bits_from «data».now c.bit_pos))) }
{
    let (ac_pred_flag, next) = read_flag(data, c)?;
    let (cbpy, after) = read_cbpy(data, next)?;
    read_dquant(data, after, mcbpc, ac_pred_flag, cbpy)
}

// The whole header, one part after the other.
pub(crate) fn read_parts(data: &[u8], c: Cursor) -> Result<(HeaderParts, Cursor), TextureParseError>
    requires { Readable «data».now c }
    ensures { SaysParts «data».now result (mapped parts_of (read_header (bits_from «data».now c.bit_pos))) }
{
    let (mcbpc, next) = read_type(data, c)?;
    read_rest(data, next, mcbpc)
}
