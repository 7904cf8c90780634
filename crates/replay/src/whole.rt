// Headers by themselves, and macroblocks alone and in a picture with their header in their bits.
use assembly::BlockAssemblyError;
use bits::Cursor;
use headers::HeaderFields;
use macroblock::WholeDecoded;
use picture::{Picture, PictureWholeDecoded};
use std::io;

fn header_said(
    rt: &impl Print,
    answer: Result<(HeaderFields, Cursor), BlockAssemblyError>,
) -> io::Result<()> {
    match answer {
        Err(e) => crate::say::refused(rt, e.number(), e.figure()),
        Ok((fields, next)) => {
            crate::say::read(rt, next.bit_pos)?;
            crate::say::fields(rt, fields)
        }
    }
}

pub(crate) fn header(rt: &impl Print, line: &[i32]) -> io::Result<()> {
    let mut data = crate::line::space();
    let n = crate::line::data_of(line, 3, &mut data);
    let quantiser_scale = crate::line::unsigned(line, 1, 0);
    let c = crate::symbols::cursor(line, 2);
    header_said(
        rt,
        headers::parse_macroblock_header(&data[..n], c, quantiser_scale),
    )
}

fn macroblock_said(
    rt: &impl Print,
    answer: Result<WholeDecoded, BlockAssemblyError>,
    samples: &[i32],
) -> io::Result<()> {
    match answer {
        Err(e) => {
            crate::say::refused(rt, e.number(), e.figure())?;
            crate::say::all_kept(rt, samples)
        }
        Ok(told) => {
            crate::say::taken(rt, told.bits, told.next.bit_pos)?;
            crate::say::fields(rt, told.fields)?;
            crate::say::all(rt, samples)
        }
    }
}

// With these samples and no more.
fn alone(
    line: &[i32],
    at: usize,
    data: &[u8],
    samples: &mut [i32],
) -> Result<WholeDecoded, BlockAssemblyError> {
    macroblock::decode_intra_macroblock_with_header(
        data,
        crate::symbols::cursor(line, at),
        crate::line::flag(line, 1, 0),
        crate::line::flag(line, 2, 0),
        crate::setting::context(line, 4),
        crate::setting::predictors(line, 11),
        crate::setting::matrix(line, 32),
        samples,
    )
}

fn alone_said(
    rt: &impl Print,
    line: &[i32],
    at: usize,
    data: &[u8],
    samples: &mut [i32],
) -> io::Result<()> {
    let answer = alone(line, at, data, samples);
    macroblock_said(rt, answer, samples)
}

pub(crate) fn macroblock(rt: &impl Print, line: &[i32]) -> io::Result<()> {
    let mut data = crate::line::space();
    let mut samples = crate::say::lent_samples();
    let at = crate::setting::after_matrix(line, 32);
    let n = crate::line::data_of(line, crate::line::later(at, 1), &mut data);
    let room = crate::line::within(crate::line::size(line, 3, 0), &samples);
    alone_said(rt, line, at, &data[..n], &mut samples[..room])
}

fn picture_said(
    rt: &impl Print,
    p: Picture,
    answer: Result<PictureWholeDecoded, BlockAssemblyError>,
    samples: &[i32],
) -> io::Result<Picture> {
    match answer {
        Err(e) => {
            crate::say::refused(rt, e.number(), e.figure())?;
            crate::say::all_kept(rt, samples)?;
            Ok(p)
        }
        Ok(told) => {
            crate::say::taken(rt, told.bits, told.next.bit_pos)?;
            crate::say::number(rt, u64::from(told.picture.accepted))?;
            crate::say::fields(rt, told.fields)?;
            crate::say::all(rt, samples)?;
            Ok(told.picture)
        }
    }
}

// With these samples and this much of the store.
fn next(
    p: Picture,
    line: &[i32],
    at: usize,
    data: &[u8],
    samples: &mut [i32],
    store: &mut [i32],
) -> Result<PictureWholeDecoded, BlockAssemblyError> {
    picture::decode_macroblock_with_header(
        p,
        data,
        crate::symbols::cursor(line, at),
        crate::setting::context_in_picture(line, 1),
        crate::setting::matrix(line, 10),
        samples,
        store,
    )
}

fn next_said(
    rt: &impl Print,
    p: Picture,
    line: &[i32],
    at: usize,
    data: &[u8],
    samples: &mut [i32],
    store: &mut [i32],
) -> io::Result<Picture> {
    let answer = next(p, line, at, data, samples, store);
    picture_said(rt, p, answer, samples)
}

pub(crate) fn in_picture(
    rt: &impl Print,
    p: Picture,
    line: &[i32],
    store: &mut [i32],
) -> io::Result<Picture> {
    let mut data = crate::line::space();
    let mut samples = crate::say::lent_samples();
    let at = crate::setting::after_matrix(line, 10);
    let n = crate::line::data_of(line, crate::line::later(at, 1), &mut data);
    let room = crate::line::within(crate::line::size(line, 3, 0), &samples);
    let stored = crate::line::within(crate::line::size(line, 4, 0), &*store);
    next_said(
        rt,
        p,
        line,
        at,
        &data[..n],
        &mut samples[..room],
        &mut store[..stored],
    )
}
