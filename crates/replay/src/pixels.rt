// Blocks, macroblocks alone and in a picture, and the transform alone.
use assembly::BlockAssemblyError;
use block::BlockDecoded;
use macroblock::MacroblockDecoded;
use picture::{Picture, PictureDecoded};
use std::io;

fn block_said(
    rt: &impl Print,
    answer: Result<BlockDecoded, BlockAssemblyError>,
    samples: [[i32; 8]; 8],
    levels: [[i32; 8]; 8],
) -> io::Result<()> {
    match answer {
        Err(e) => {
            crate::say::refused(rt, e.number(), e.figure())?;
            crate::say::blocks_kept(rt, samples, levels)
        }
        Ok(told) => {
            crate::say::decoded(rt, told.dc, told.next.bit_pos)?;
            crate::say::block(rt, levels)?;
            crate::say::block(rt, samples)
        }
    }
}

fn one_block(rt: &impl Print, line: &[i32], at: usize, data: &[u8]) -> io::Result<()> {
    let mut samples = crate::say::lent_block();
    let mut levels = crate::say::lent_block();
    let answer = block::decode_intra_block_full(
        data,
        crate::symbols::cursor(line, at),
        crate::line::size(line, 1, 0),
        crate::line::flag(line, 2, 0),
        crate::line::flag(line, 3, 0),
        crate::line::flag(line, 4, 0),
        crate::setting::context(line, 5),
        crate::setting::predictors(line, 12),
        crate::setting::matrix(line, 33),
        &mut samples,
        &mut levels,
    );
    block_said(rt, answer, samples, levels)
}

pub(crate) fn block(rt: &impl Print, line: &[i32]) -> io::Result<()> {
    let mut data = crate::line::space();
    let at = crate::setting::after_matrix(line, 33);
    let n = crate::line::data_of(line, crate::line::later(at, 1), &mut data);
    one_block(rt, line, at, &data[..n])
}

fn macroblock_said(
    rt: &impl Print,
    answer: Result<MacroblockDecoded, BlockAssemblyError>,
    samples: &[i32],
) -> io::Result<()> {
    match answer {
        Err(e) => {
            crate::say::refused(rt, e.number(), e.figure())?;
            crate::say::all_kept(rt, samples)
        }
        Ok(told) => {
            crate::say::taken(rt, told.bits, told.next.bit_pos)?;
            crate::say::all(rt, samples)
        }
    }
}

// With these samples and no more.
fn alone(
    line: &[i32],
    at: usize,
    data: &[u8],
    samples: &mut [i32],
) -> Result<MacroblockDecoded, BlockAssemblyError> {
    macroblock::decode_intra_macroblock(
        data,
        crate::symbols::cursor(line, at),
        crate::setting::header(line),
        crate::line::flag(line, 6, 0),
        crate::line::flag(line, 7, 0),
        crate::setting::context(line, 9),
        crate::setting::predictors(line, 16),
        crate::setting::matrix(line, 37),
        samples,
    )
}

fn alone_said(
    rt: &impl Print,
    line: &[i32],
    at: usize,
    data: &[u8],
    samples: &mut [i32],
) -> io::Result<()> {
    let answer = alone(line, at, data, samples);
    macroblock_said(rt, answer, samples)
}

pub(crate) fn macroblock(rt: &impl Print, line: &[i32]) -> io::Result<()> {
    let mut data = crate::line::space();
    let mut samples = crate::say::lent_samples();
    let at = crate::setting::after_matrix(line, 37);
    let n = crate::line::data_of(line, crate::line::later(at, 1), &mut data);
    let room = crate::line::within(crate::line::size(line, 8, 0), &samples);
    alone_said(rt, line, at, &data[..n], &mut samples[..room])
}

// Before the first opening: a picture that no call fits.
pub(crate) fn none() -> Picture {
    Picture {
        width: 0,
        height: 0,
        bits_per_pixel: 0,
        quant_type: false,
        accepted: 0,
    }
}

// The picture that is open after it.
pub(crate) fn opening(rt: &impl Print, p: Picture, line: &[i32]) -> io::Result<Picture> {
    let answer = Picture::open(
        crate::line::unsigned(line, 1, 0),
        crate::line::unsigned(line, 2, 0),
        crate::line::unsigned(line, 3, 0),
        crate::line::flag(line, 4, 0),
    );
    match answer {
        Err(e) => {
            crate::say::refused(rt, e.number(), e.figure())?;
            Ok(p)
        }
        Ok(q) => {
            crate::say::opened(rt, q.width, q.height, q.bits_per_pixel, q.quant_type)?;
            crate::say::number(rt, u64::from(q.accepted))?;
            Ok(q)
        }
    }
}

fn picture_said(
    rt: &impl Print,
    p: Picture,
    answer: Result<PictureDecoded, BlockAssemblyError>,
    samples: &[i32],
) -> io::Result<Picture> {
    match answer {
        Err(e) => {
            crate::say::refused(rt, e.number(), e.figure())?;
            crate::say::all_kept(rt, samples)?;
            Ok(p)
        }
        Ok(told) => {
            crate::say::taken(rt, told.bits, told.next.bit_pos)?;
            crate::say::number(rt, u64::from(told.picture.accepted))?;
            crate::say::all(rt, samples)?;
            Ok(told.picture)
        }
    }
}

// With these samples and this much of the store.
fn next(
    p: Picture,
    line: &[i32],
    at: usize,
    data: &[u8],
    samples: &mut [i32],
    store: &mut [i32],
) -> Result<PictureDecoded, BlockAssemblyError> {
    picture::decode_macroblock(
        p,
        data,
        crate::symbols::cursor(line, at),
        crate::setting::header(line),
        crate::setting::context_in_picture(line, 6),
        crate::setting::matrix(line, 15),
        samples,
        store,
    )
}

fn next_said(
    rt: &impl Print,
    p: Picture,
    line: &[i32],
    at: usize,
    data: &[u8],
    samples: &mut [i32],
    store: &mut [i32],
) -> io::Result<Picture> {
    let answer = next(p, line, at, data, samples, store);
    picture_said(rt, p, answer, samples)
}

pub(crate) fn in_picture(
    rt: &impl Print,
    p: Picture,
    line: &[i32],
    store: &mut [i32],
) -> io::Result<Picture> {
    let mut data = crate::line::space();
    let mut samples = crate::say::lent_samples();
    let at = crate::setting::after_matrix(line, 15);
    let n = crate::line::data_of(line, crate::line::later(at, 1), &mut data);
    let room = crate::line::within(crate::line::size(line, 8, 0), &samples);
    let stored = crate::line::within(crate::line::size(line, 9, 0), &*store);
    next_said(
        rt,
        p,
        line,
        at,
        &data[..n],
        &mut samples[..room],
        &mut store[..stored],
    )
}

pub(crate) fn transform(rt: &impl Print, line: &[i32]) -> io::Result<()> {
    let mut samples = crate::say::lent_block();
    let rounding = crate::setting::rule(crate::line::flag(line, 2, 0));
    let answer = idct::idct_8x8_rounded(
        crate::setting::values(line, 3),
        crate::line::unsigned(line, 1, 0),
        rounding,
        &mut samples,
    );
    if let Err(e) = answer {
        crate::say::refused(rt, e.number(), 0)?;
        return crate::say::block_kept(rt, samples);
    }
    crate::say::transformed(rt)?;
    crate::say::block(rt, samples)
}
