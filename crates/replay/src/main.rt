// Replays the original's answers: each line of standard input is a call, and what the call gives is printed as one line.
//
// A line is signed decimal numbers parted by one space, the first its kind; those that are missing are 0. Flags are 0 or 1, a
// component and a table 1 for chrominance and inter, a type is its place in Table B.1, 0 the missing one. `AT` is the start and
// `BYTE ..` the data. Printed is `0` and what was accepted, or the refusal's number and figure; after a refusal of kinds 3, 4, 5, 7,
// 8, 10 and 11 also whether the lent memory is as before.
//
//     1 COMPONENT AT BYTE ..                          size, difference, position
//     2 REVERSIBLE TABLE AT BYTE ..                   last, run, level, position
//     3 REVERSIBLE TABLE DC_CODED AT BYTE ..          position, 64 places
//     4 I CODED DC_CODED REVERSIBLE SETTING AT BYTE ..            DC, position, 64 levels, 64 samples
//     5 HEADER DC_CODED REVERSIBLE ROOM SETTING AT BYTE ..        bits, position, the samples lent
//     6 WIDTH HEIGHT DEPTH METHOD                     the picture: width, height, depth, method, accepted
//     7 HEADER DC_CODED REVERSIBLE ROOM STORED QUANTISER AC_PRED ALTERNATE EXEMPT TO_EVEN MATRIX AT BYTE ..
//                                                     bits, position, accepted, the samples lent
//     8 DEPTH TO_EVEN VALUE (64)                      64 samples
//
// Of a header in the bits, with the quantiser before it; its own flag stands for AC_PRED:
//
//     9 QUANTISER AT BYTE ..                          position, FIELDS
//     10 DC_CODED REVERSIBLE ROOM SETTING AT BYTE ..  bits, position, FIELDS, the samples lent
//     11 DC_CODED REVERSIBLE ROOM STORED QUANTISER AC_PRED ALTERNATE EXEMPT TO_EVEN MATRIX AT BYTE ..
//                                                     bits, position, accepted, FIELDS, the samples lent
//
//     SETTING: QUANTISER DEPTH METHOD AC_PRED ALTERNATE EXEMPT TO_EVEN A B C QUANTISER_A QUANTISER_C HAS_A HAS_C COLUMN (7) ROW (7)
//     MATRIX. HEADER: NOT_CODED TYPE CBPC AC_PRED CBPY. MATRIX: 0, the default one; or 1 and 64 numbers. METHOD: 1 for method 1.
//     FIELDS: HEADER, what dquant changes the quantiser by, the quantiser after it.
#![tactic(auto)]

mod feed;
mod line;
mod pixels;
mod say;
mod setting;
mod symbols;
mod whole;

use feed::Reading;
use picture::Picture;
use std::io;
use std::io::Read;

// What a line says; the picture that is open after it.
fn answer(rt: &impl Print, p: Picture, line: &[i32], store: &mut [i32]) -> io::Result<Picture> {
    match line::number(line, 0, 0) {
        1 => symbols::dc(rt, line)?,
        2 => symbols::event(rt, line)?,
        3 => symbols::list(rt, line)?,
        4 => pixels::block(rt, line)?,
        5 => pixels::macroblock(rt, line)?,
        6 => return pixels::opening(rt, p, line),
        7 => return pixels::in_picture(rt, p, line, store),
        8 => pixels::transform(rt, line)?,
        9 => whole::header(rt, line)?,
        10 => whole::macroblock(rt, line)?,
        11 => return whole::in_picture(rt, p, line, store),
        _ => say::none(rt)?,
    }
    Ok(p)
}

fn byte(
    rt: &impl Print,
    r: Reading,
    b: u8,
    line: &mut [i32],
    store: &mut [i32],
) -> io::Result<Reading> {
    let fed = feed::feed(r, b, line);
    if b != b'\n' {
        return Ok(fed);
    }
    let n = line::within(fed.n, &*line);
    let open = answer(rt, fed.picture, &line[..n], store)?;
    say::end(rt)?;
    Ok(feed::start(open))
}

fn bytes(
    rt: &impl Print,
    r: Reading,
    chunk: &[u8],
    line: &mut [i32],
    store: &mut [i32],
) -> io::Result<Reading> {
    let mut now_at = r;
    for b in chunk {
        now_at = byte(rt, now_at, *b, line, store)?;
    }
    Ok(now_at)
}

// One read.
fn turn(
    rt: &impl Print,
    input: &mut impl Read,
    r: Reading,
    line: &mut [i32],
    store: &mut [i32],
) -> io::Result<Reading> {
    let mut buffer = [0u8; 65536];
    let n = input.read(&mut buffer)?;
    if n == 0 {
        return Ok(feed::end(r));
    }
    bytes(rt, r, &buffer[..n], line, store)
}

// A proved loop has to end: it has more turns than any run uses up.
fn run(
    rt: &impl Print,
    input: &mut impl Read,
    line: &mut [i32],
    store: &mut [i32],
) -> io::Result<()> {
    let mut r = feed::start(pixels::none());
    for _ in 0..u64::MAX {
        if r.ended {
            return Ok(());
        }
        r = turn(rt, input, r, line, store)?;
    }
    Ok(())
}

fn main(rt: HostRuntime) -> io::Result<()> {
    let mut input = rt.stdin();
    let mut line = [0i32; 4096];
    let mut store = [0i32; 8640];
    run(&rt, &mut input, &mut line, &mut store)
}
