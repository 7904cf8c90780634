// The fields of a header as six numbers: type, cbpc, ac_pred_flag, cbpy, what dquant changes the quantiser by, and the quantiser
// after it.
ghost use Rattle.std.specs.Prelude.{◌≡◌, ◌-◌, ◌≤◌, length};
ghost use Rattle.vaxembro.specs.Fields.{bit_of, fields_after, header_out, scale_of, told_of_header, told_whole, told_whole_in, type_number, whole_header_out, whole_header_out_in};

use crate::answer::Told;
use assembly::BlockAssemblyError;
use bits::Cursor;
use headers::{DerivedMbType, HeaderFields};
use macroblock::WholeDecoded;
use picture::PictureWholeDecoded;
use texture::Spellings;

// The numbers of a header.
pub(crate) const HEADER: usize = 6;

// As mb_type says it.
fn type_number(kind: DerivedMbType) -> i32
    ensures { result ≡ type_number kind }
{
    match kind {
        DerivedMbType::Missing => 0,
        DerivedMbType::Inter => 1,
        DerivedMbType::InterQ => 2,
        DerivedMbType::Inter4V => 3,
        DerivedMbType::Intra => 4,
        DerivedMbType::IntraQ => 5,
    }
}

fn bit_of(set: bool) -> i32
    ensures { result ≡ bit_of set }
{
    i32::from(set)
}

// A quantiser as a signed number; one that is none counts as 0.
fn scale_of(q: u32) -> i32
    ensures { result ≡ scale_of q }
{
    if q < 32 {
        return q as i32;
    }
    0
}

// The fields into the lent numbers.
fn put_fields(header: &mut [i32], f: HeaderFields)
    requires { 6 ≤ length header.old }
    ensures { header.new ≡ fields_after f header.old }
{
    let h = f.header;
    let kind = h.mb_type;
    let mb_type = type_number(kind);
    let cbpc = h.cbpc as i32;
    let ac_pred_flag = bit_of(h.ac_pred_flag);
    let cbpy = h.cbpy as i32;
    let dquant_delta = f.dquant_delta;
    let quantiser_scale = scale_of(f.quantiser_scale);
    header[0] = mb_type;
    header[1] = cbpc;
    header[2] = ac_pred_flag;
    header[3] = cbpy;
    header[4] = dquant_delta;
    header[5] = quantiser_scale;
}

// The fields of a header that was read; a refusal leaves the lent numbers.
pub(crate) fn put_read(header: &mut [i32], r: Result<(HeaderFields, Cursor), BlockAssemblyError>)
    requires { 6 ≤ length header.old }
    ensures { header.new ≡ header_out r header.old }
{
    if let Ok((fields, _)) = r {
        put_fields(header, fields);
    }
}

pub(crate) fn put_whole(header: &mut [i32], d: Result<WholeDecoded, BlockAssemblyError>)
    requires { 6 ≤ length header.old }
    ensures { header.new ≡ whole_header_out d header.old }
{
    if let Ok(told) = d {
        put_fields(header, told.fields);
    }
}

pub(crate) fn put_whole_in(header: &mut [i32], d: Result<PictureWholeDecoded, BlockAssemblyError>)
    requires { 6 ≤ length header.old }
    ensures { header.new ≡ whole_header_out_in d header.old }
{
    if let Ok(told) = d {
        put_fields(header, told.fields);
    }
}

// How many bits lie between two positions.
fn taken(at: usize, position: usize) -> usize
    ensures { result ≡ position - at }
{
    position.saturating_sub(at)
}

// What is told of a header that starts at `at`: its own bits, and no events.
pub(crate) fn told_of_header(
    r: Result<(HeaderFields, Cursor), BlockAssemblyError>,
    at: usize,
) -> Told
    ensures { result ≡ told_of_header r at }
{
    match r {
        Err(e) => crate::answer::refused(e, at),
        Ok((_, next)) => {
            let position = next.bit_pos;
            crate::answer::accepted(taken(at, position), position, Spellings::none())
        }
    }
}

// Of a whole macroblock read alone, and in a picture.
pub(crate) fn told_whole(d: Result<WholeDecoded, BlockAssemblyError>, at: usize) -> Told
    ensures { result ≡ told_whole d at }
{
    match d {
        Err(e) => crate::answer::refused(e, at),
        Ok(told) => crate::answer::accepted(told.bits, told.next.bit_pos, told.spellings),
    }
}

pub(crate) fn told_whole_in(d: Result<PictureWholeDecoded, BlockAssemblyError>, at: usize) -> Told
    ensures { result ≡ told_whole_in d at }
{
    match d {
        Err(e) => crate::answer::refused(e, at),
        Ok(told) => crate::answer::accepted(told.bits, told.next.bit_pos, told.spellings),
    }
}
