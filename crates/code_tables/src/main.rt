// Prints each row of the code tables as the search finds it: the table's name, the code's bits, and
// what it says. For a table of coefficients that is last, run, level and, of the plain codes, LMAX and
// RMAX; for a table of DC sizes the size; for mcbpc the type of macroblock and cbpc; for cbpy its pattern.
#![tactic(auto)]

use codes::{DcComponent, TcoefTable};
use std::io;

fn text(rt: &impl Print, s: &[u8]) -> io::Result<()> {
    rt.write_all(s)
}

fn number(rt: &impl Print, n: u32) -> io::Result<()> {
    space(rt)?;
    rt.print(n)
}

fn small(rt: &impl Print, n: u8) -> io::Result<()> {
    number(rt, u32::from(n))
}

fn space(rt: &impl Print) -> io::Result<()> {
    text(rt, b" ")
}

fn newline(rt: &impl Print) -> io::Result<()> {
    text(rt, b"\n")
}

fn bit(rt: &impl Print, b: u32) -> io::Result<()> {
    rt.print(b)
}

// A code, top bit first.
fn code_bits(rt: &impl Print, code: u32, len: u32) -> io::Result<()> {
    space(rt)?;
    for k in (0..len.min(32)).rev() {
        bit(rt, (code >> k) % 2)?;
    }
    Ok(())
}

// A code at the front of a window of 16 bits.
fn window(code: u32, len: u32) -> u32 {
    if len <= 16 {
        return code << (16 - len);
    }
    0
}

fn tcoef(rt: &impl Print, name: &[u8], table: TcoefTable) -> io::Result<()> {
    let codes = codes::tcoef_codes();
    let lens = codes::tcoef_lens();
    let events = codes::tcoef_events(table);
    for (&code, &len) in codes.iter().zip(&lens).take(102) {
        let row = codes::find_row(&codes, &lens, 102, window(code, len), 16);
        if row < 102 {
            text(rt, name)?;
            code_bits(rt, code, len)?;
            small(rt, events[row])?;
            small(rt, events[102 + row])?;
            small(rt, events[204 + row])?;
            small(rt, events[306 + row])?;
            small(rt, events[408 + row])?;
            newline(rt)?;
        }
    }
    Ok(())
}

fn rvlc(rt: &impl Print, name: &[u8], table: TcoefTable) -> io::Result<()> {
    let codes = codes::rvlc_codes();
    let lens = codes::rvlc_lens();
    let events = codes::rvlc_events(table);
    for (&code, &len) in codes.iter().zip(&lens).take(169) {
        let row = codes::find_row(&codes, &lens, 169, window(code, len), 16);
        if row < 169 {
            text(rt, name)?;
            code_bits(rt, code, len)?;
            small(rt, events[row])?;
            small(rt, events[169 + row])?;
            small(rt, events[338 + row])?;
            newline(rt)?;
        }
    }
    Ok(())
}

fn dc_size(rt: &impl Print, name: &[u8], component: DcComponent) -> io::Result<()> {
    let codes = codes::dc_size_codes(component);
    let lens = codes::dc_size_lens(component);
    for (&code, &len) in codes.iter().zip(&lens) {
        let row = codes::find_row(&codes, &lens, 13, window(code, len), 16);
        if row < 13 {
            text(rt, name)?;
            code_bits(rt, code, len)?;
            number(rt, row as u32)?;
            newline(rt)?;
        }
    }
    Ok(())
}

// Table B.6: 3 is intra, 4 intra with a quantiser change.
fn type_and_cbpc(rt: &impl Print, row: u32) -> io::Result<()> {
    if row == 8 {
        return text(rt, b" stuffing");
    }
    number(rt, 3 + row / 4 % 2)?;
    number(rt, row % 4)
}

fn mcbpc(rt: &impl Print, name: &[u8]) -> io::Result<()> {
    let codes = codes::mcbpc_codes();
    let lens = codes::mcbpc_lens();
    for (&code, &len) in codes.iter().zip(&lens) {
        let row = codes::find_row(&codes, &lens, 9, window(code, len), 16);
        if row < 9 {
            text(rt, name)?;
            code_bits(rt, code, len)?;
            type_and_cbpc(rt, row as u32)?;
            newline(rt)?;
        }
    }
    Ok(())
}

fn cbpy(rt: &impl Print, name: &[u8]) -> io::Result<()> {
    let codes = codes::cbpy_codes();
    let lens = codes::cbpy_lens();
    for (&code, &len) in codes.iter().zip(&lens) {
        let row = codes::find_row(&codes, &lens, 16, window(code, len), 16);
        if row < 16 {
            text(rt, name)?;
            code_bits(rt, code, len)?;
            number(rt, row as u32)?;
            newline(rt)?;
        }
    }
    Ok(())
}

fn main(rt: HostRuntime) -> io::Result<()> {
    tcoef(&rt, b"intra", TcoefTable::Intra)?;
    tcoef(&rt, b"inter", TcoefTable::Inter)?;
    rvlc(&rt, b"rvlc-intra", TcoefTable::Intra)?;
    rvlc(&rt, b"rvlc-inter", TcoefTable::Inter)?;
    dc_size(&rt, b"luminance", DcComponent::Luminance)?;
    dc_size(&rt, b"chrominance", DcComponent::Chrominance)?;
    mcbpc(&rt, b"mcbpc")?;
    cbpy(&rt, b"cbpy")
}
