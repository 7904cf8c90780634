// Reads standard input and writes what is said to it; the work is in `still_lines`.
#![tactic(auto)]

use std::io;
use std::io::Read;
use still_lines::{Reading, Stepped};

// Where reading stands, and whether it goes on: not after the end, nor where the lent memory is too short.
#[derive(Clone, Copy)]
struct Going {
    reading: Reading,
    on: bool,
}

fn byte(
    rt: &impl Print,
    r: Reading,
    b: u8,
    line: &mut [u8],
    data: &mut [u8],
    samples: &mut [i32],
    store: &mut [i32],
    out: &mut [u8],
) -> io::Result<Going> {
    match still_lines::step(r, b, line, data, samples, store, out) {
        Stepped::TooShort => Ok(Going {
            reading: r,
            on: false,
        }),
        Stepped::Went(next, n) => {
            rt.write_all(&out[..n])?;
            Ok(Going {
                reading: next,
                on: true,
            })
        }
    }
}

fn bytes(
    rt: &impl Print,
    r: Reading,
    chunk: &[u8],
    line: &mut [u8],
    data: &mut [u8],
    samples: &mut [i32],
    store: &mut [i32],
    out: &mut [u8],
) -> io::Result<Going> {
    let mut g = Going {
        reading: r,
        on: true,
    };
    for b in chunk {
        if !g.on {
            return Ok(g);
        }
        g = byte(rt, g.reading, *b, line, data, samples, store, out)?;
    }
    Ok(g)
}

fn end(
    rt: &impl Print,
    r: Reading,
    line: &[u8],
    data: &mut [u8],
    samples: &mut [i32],
    store: &mut [i32],
    out: &mut [u8],
) -> io::Result<()> {
    match still_lines::finish(r, line, data, samples, store, out) {
        Stepped::TooShort => Ok(()),
        Stepped::Went(_, n) => rt.write_all(&out[..n]),
    }
}

// One read. One that fails is not the end of the input: nothing more is said.
fn turn(
    rt: &impl Print,
    input: &mut impl Read,
    r: Reading,
    buffer: &mut [u8],
    line: &mut [u8],
    data: &mut [u8],
    samples: &mut [i32],
    store: &mut [i32],
    out: &mut [u8],
) -> io::Result<Going> {
    let n = input.read(buffer)?;
    if n == 0 {
        end(rt, r, &*line, data, samples, store, out)?;
        return Ok(Going {
            reading: r,
            on: false,
        });
    }
    bytes(rt, r, &buffer[..n], line, data, samples, store, out)
}

// A proved loop has to end: it has more turns than any run uses up.
fn run(
    rt: &impl Print,
    input: &mut impl Read,
    buffer: &mut [u8],
    line: &mut [u8],
    data: &mut [u8],
    samples: &mut [i32],
    store: &mut [i32],
    out: &mut [u8],
) -> io::Result<()> {
    let mut g = Going {
        reading: still_lines::start(),
        on: true,
    };
    for _ in 0..u64::MAX {
        if !g.on {
            return Ok(());
        }
        g = turn(
            rt, input, g.reading, buffer, line, data, samples, store, out,
        )?;
    }
    Ok(())
}

fn main(rt: HostRuntime) -> io::Result<()> {
    let mut input = rt.stdin();
    let mut buffer = [0u8; 65536];
    let mut line = [0u8; 32768];
    let mut data = [0u8; 16384];
    let mut samples = [0i32; 384];
    let mut store = [0i32; 8640];
    let mut out = [0u8; 512];
    run(
        &rt,
        &mut input,
        &mut buffer,
        &mut line,
        &mut data,
        &mut samples,
        &mut store,
        &mut out,
    )
}
