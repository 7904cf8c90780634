// Runs the edges that documents 01 and 02 name for bits and codes through the public functions, one a line;
// then those of a macroblock's header.
#![tactic(auto)]

mod header;

use bits::Cursor;
use codes::{DcComponent, TcoefTable};
use events::AcEvent;
use std::io;
use texture::{Spelling, Spellings, TextureParseError};

pub(crate) fn text(rt: &impl Print, s: &[u8]) -> io::Result<()> {
    rt.write_all(s)
}

pub(crate) fn number(rt: &impl Print, n: u64) -> io::Result<()> {
    text(rt, b" ")?;
    rt.print(n)
}

pub(crate) fn signed(rt: &impl Print, n: i32) -> io::Result<()> {
    text(rt, b" ")?;
    rt.print(n)
}

pub(crate) fn flag(rt: &impl Print, set: bool) -> io::Result<()> {
    number(rt, u64::from(set))
}

fn refused(rt: &impl Print, e: TextureParseError) -> io::Result<()> {
    text(rt, b" refused")?;
    number(rt, e.number() as u64)?;
    number(rt, e.figure() as u64)
}

pub(crate) fn at_bit(at: usize) -> Cursor {
    Cursor { bit_pos: at }
}

pub(crate) fn named(rt: &impl Print, kind: &[u8], name: &[u8]) -> io::Result<()> {
    text(rt, kind)?;
    text(rt, b": ")?;
    text(rt, name)?;
    text(rt, b":")
}

fn dc(
    rt: &impl Print,
    name: &[u8],
    data: &[u8],
    at: usize,
    component: DcComponent,
) -> io::Result<()> {
    named(rt, b"dc", name)?;
    let answer = texture::decode_intra_dc(data, at_bit(at), component);
    match answer {
        Err(e) => refused(rt, e)?,
        Ok((d, next)) => {
            number(rt, d.size as u64)?;
            signed(rt, d.differential)?;
            number(rt, next.bit_pos as u64)?;
        }
    }
    text(rt, b"\n")
}

fn spelling(rt: &impl Print, k: Spelling) -> io::Result<()> {
    match k {
        Spelling::Plain => text(rt, b" plain"),
        Spelling::Type1 => text(rt, b" type 1"),
        Spelling::Type2 => text(rt, b" type 2"),
        Spelling::Type3 => text(rt, b" type 3"),
        Spelling::RvlcEscape => text(rt, b" reversible escape"),
    }
}

fn print_event(
    rt: &impl Print,
    answer: Result<(AcEvent, Cursor), TextureParseError>,
) -> io::Result<()> {
    match answer {
        Err(e) => refused(rt, e)?,
        Ok((v, next)) => {
            flag(rt, v.last)?;
            number(rt, v.run as u64)?;
            signed(rt, v.level)?;
            number(rt, next.bit_pos as u64)?;
            let k = v.spelling;
            spelling(rt, k)?;
        }
    }
    text(rt, b"\n")
}

fn event(
    rt: &impl Print,
    name: &[u8],
    data: &[u8],
    at: usize,
    table: TcoefTable,
) -> io::Result<()> {
    named(rt, b"event", name)?;
    print_event(rt, texture::decode_ac_event(data, at_bit(at), table))
}

fn event_rvlc(
    rt: &impl Print,
    name: &[u8],
    data: &[u8],
    at: usize,
    table: TcoefTable,
) -> io::Result<()> {
    named(rt, b"event rvlc", name)?;
    print_event(rt, texture::decode_ac_event_rvlc(data, at_bit(at), table))
}

fn places(rt: &impl Print, qfs: [i32; 64]) -> io::Result<()> {
    for (i, level) in qfs.iter().enumerate() {
        if *level != 0 {
            number(rt, i as u64)?;
            signed(rt, *level)?;
        }
    }
    Ok(())
}

// How many events of each spelling.
fn spelled(rt: &impl Print, n: Spellings) -> io::Result<()> {
    text(rt, b" spelled")?;
    number(rt, n.plain as u64)?;
    number(rt, n.type1 as u64)?;
    number(rt, n.type2 as u64)?;
    number(rt, n.type3 as u64)?;
    number(rt, n.rvlc_escape as u64)
}

fn print_list(
    rt: &impl Print,
    answer: Result<(Cursor, Spellings), TextureParseError>,
    qfs: [i32; 64],
) -> io::Result<()> {
    match answer {
        Err(e) => {
            refused(rt, e)?;
            places(rt, qfs)?;
        }
        Ok((next, n)) => {
            number(rt, next.bit_pos as u64)?;
            places(rt, qfs)?;
            spelled(rt, n)?;
        }
    }
    text(rt, b"\n")
}

fn list(rt: &impl Print, name: &[u8], data: &[u8], at: usize, dc_coded: bool) -> io::Result<()> {
    named(rt, b"list", name)?;
    let mut qfs = [0i32; 64];
    let answer = texture::decode_ac_events(data, at_bit(at), TcoefTable::Intra, dc_coded, &mut qfs);
    print_list(rt, answer, qfs)
}

fn list_rvlc(
    rt: &impl Print,
    name: &[u8],
    data: &[u8],
    at: usize,
    dc_coded: bool,
) -> io::Result<()> {
    named(rt, b"list rvlc", name)?;
    let mut qfs = [0i32; 64];
    let answer = texture::decode_ac_events_rvlc(
        data,
        at_bit(at),
        TcoefTable::Intra,
        dc_coded,
        &mut qfs,
    );
    print_list(rt, answer, qfs)
}

// DC parts that are not there.
fn dc_without_a_code(rt: &impl Print) -> io::Result<()> {
    dc(
        rt,
        b"no bits left, luminance",
        &[0xFF],
        8,
        DcComponent::Luminance,
    )?;
    dc(
        rt,
        b"no bits left, chrominance",
        &[0xFF],
        8,
        DcComponent::Chrominance,
    )?;
    dc(
        rt,
        b"one bit 0 left, luminance",
        &[0xFE],
        7,
        DcComponent::Luminance,
    )?;
    dc(
        rt,
        b"one bit 0 left, chrominance",
        &[0xFE],
        7,
        DcComponent::Chrominance,
    )?;
    dc(rt, b"no code", &[0x00, 0x00], 0, DcComponent::Luminance)?;
    dc(
        rt,
        b"start past the end",
        &[0xFF],
        9,
        DcComponent::Luminance,
    )
}

// DC parts whose code is cut, beside bits that begin none.
fn dc_cut_codes(rt: &impl Print) -> io::Result<()> {
    dc(
        rt,
        b"ten zeros left, luminance",
        &[0xFC, 0x00],
        6,
        DcComponent::Luminance,
    )?;
    dc(
        rt,
        b"eleven zeros left, luminance",
        &[0xF8, 0x00],
        5,
        DcComponent::Luminance,
    )?;
    dc(
        rt,
        b"eleven zeros left, chrominance",
        &[0xF8, 0x00],
        5,
        DcComponent::Chrominance,
    )?;
    dc(
        rt,
        b"twelve zeros left, chrominance",
        &[0xF0, 0x00],
        4,
        DcComponent::Chrominance,
    )?;
    dc(
        rt,
        b"eleven zeros and a 1 left, luminance",
        &[0xF0, 0x01],
        4,
        DcComponent::Luminance,
    )?;
    dc(
        rt,
        b"eleven zeros and a 1 left, chrominance",
        &[0xF0, 0x01],
        4,
        DcComponent::Chrominance,
    )
}

// DC parts: size, difference and the position after it.
fn dc_examples(rt: &impl Print) -> io::Result<()> {
    dc(rt, b"P1", &[0xC0], 0, DcComponent::Luminance)?;
    dc(rt, b"P1", &[0xE0], 0, DcComponent::Luminance)?;
    dc(rt, b"P2", &[0x01, 0x80, 0x40], 0, DcComponent::Luminance)?;
    dc(
        rt,
        b"P2 with a final 0",
        &[0x01, 0x80, 0x00],
        0,
        DcComponent::Luminance,
    )?;
    dc(
        rt,
        b"P2 with no final bit",
        &[0xFE, 0x03, 0x00],
        7,
        DcComponent::Luminance,
    )?;
    dc(
        rt,
        b"P2 with one bit less",
        &[0x01, 0x80],
        0,
        DcComponent::Luminance,
    )
}

// Plain events that are not there.
fn event_without_bits(rt: &impl Print) -> io::Result<()> {
    event(rt, b"no bits left, intra", &[0xFF], 8, TcoefTable::Intra)?;
    event(rt, b"no bits left, inter", &[0xFF], 8, TcoefTable::Inter)?;
    event(rt, b"start past the end", &[0xFF], 9, TcoefTable::Intra)
}

// Plain events whose code is cut, beside bits that begin none.
fn event_cut_codes(rt: &impl Print) -> io::Result<()> {
    event(
        rt,
        b"eleven bits of a code of twelve, intra",
        &[0xF8, 0x28],
        5,
        TcoefTable::Intra,
    )?;
    event(
        rt,
        b"eleven bits of a code of twelve, inter",
        &[0xF8, 0x28],
        5,
        TcoefTable::Inter,
    )?;
    event(
        rt,
        b"eight zeros left, intra",
        &[0x00],
        0,
        TcoefTable::Intra,
    )?;
    event(
        rt,
        b"eight zeros left, inter",
        &[0x00],
        0,
        TcoefTable::Inter,
    )?;
    event(
        rt,
        b"nine zeros left, intra",
        &[0xFE, 0x00],
        7,
        TcoefTable::Intra,
    )?;
    event(
        rt,
        b"nine zeros left, inter",
        &[0xFE, 0x00],
        7,
        TcoefTable::Inter,
    )?;
    event(rt, b"code without its sign", &[0xF7], 4, TcoefTable::Intra)
}

// Plain events: last, run, level and the position after it.
fn event_examples(rt: &impl Print) -> io::Result<()> {
    event(rt, b"P3", &[0x78], 0, TcoefTable::Intra)?;
    event(rt, b"P4", &[0x06, 0x70], 0, TcoefTable::Intra)?;
    event(rt, b"P5", &[0x07, 0x38], 0, TcoefTable::Intra)?;
    event(rt, b"P6", &[0x07, 0xC0, 0xC0, 0x0C], 0, TcoefTable::Intra)?;
    event(
        rt,
        b"P6 with 800",
        &[0x07, 0xC0, 0xC0, 0x04],
        0,
        TcoefTable::Intra,
    )
}

// Escapes that are refused.
fn event_escapes(rt: &impl Print) -> io::Result<()> {
    event(
        rt,
        b"type 3 level 0",
        &[0x07, 0xC0, 0x80, 0x04],
        0,
        TcoefTable::Intra,
    )?;
    event(
        rt,
        b"type 3 level 0, second marker 0",
        &[0x07, 0xC0, 0x80, 0x00],
        0,
        TcoefTable::Intra,
    )?;
    event(
        rt,
        b"type 3 first marker 0",
        &[0x07, 0xC0, 0x00, 0x0C],
        0,
        TcoefTable::Intra,
    )?;
    event(
        rt,
        b"type 3 without its second marker",
        &[0xE0, 0xF8, 0x10, 0x01],
        3,
        TcoefTable::Intra,
    )?;
    event(
        rt,
        b"type 1 with another escape",
        &[0x06, 0x06],
        0,
        TcoefTable::Intra,
    )?;
    event(rt, b"escape alone", &[0x83], 1, TcoefTable::Intra)
}

// Codes that are cut after an escape of type 1, beside bits that begin none.
fn event_cut_type_1(rt: &impl Print) -> io::Result<()> {
    event(rt, b"type 1 alone", &[0x06], 0, TcoefTable::Intra)?;
    event(
        rt,
        b"type 1 with 000001",
        &[0xC1, 0x81],
        2,
        TcoefTable::Intra,
    )?;
    event(
        rt,
        b"type 1 with 0000011",
        &[0x83, 0x03],
        1,
        TcoefTable::Intra,
    )?;
    event(
        rt,
        b"type 1 with eleven bits of a code of twelve",
        &[0xF8, 0x30, 0x28],
        5,
        TcoefTable::Intra,
    )?;
    event(
        rt,
        b"type 1 with nine zeros",
        &[0xFE, 0x0C, 0x00],
        7,
        TcoefTable::Intra,
    )
}

// Codes that are cut after an escape of type 2, beside bits that begin none.
fn event_cut_type_2(rt: &impl Print) -> io::Result<()> {
    event(rt, b"type 2 without its 0", &[0x07], 0, TcoefTable::Intra)?;
    event(
        rt,
        b"type 2 with 000001",
        &[0x83, 0x81],
        1,
        TcoefTable::Intra,
    )?;
    event(
        rt,
        b"type 2 with 0000011",
        &[0x07, 0x03],
        0,
        TcoefTable::Intra,
    )?;
    event(
        rt,
        b"type 2 with eleven bits of a code of twelve",
        &[0xF0, 0x70, 0x28],
        4,
        TcoefTable::Intra,
    )?;
    event(
        rt,
        b"type 2 with nine zeros",
        &[0xFC, 0x1C, 0x00],
        6,
        TcoefTable::Intra,
    )
}

// Reversible events that are not there.
fn reversible_without_bits(rt: &impl Print) -> io::Result<()> {
    event_rvlc(rt, b"no bits left, intra", &[0xFF], 8, TcoefTable::Intra)?;
    event_rvlc(rt, b"no bits left, inter", &[0xFF], 8, TcoefTable::Inter)?;
    event_rvlc(rt, b"start past the end", &[0xFF], 9, TcoefTable::Intra)
}

// Reversible events whose code is cut, beside bits that begin none.
fn reversible_cut_codes(rt: &impl Print) -> io::Result<()> {
    event_rvlc(rt, b"four zeros left", &[0xF0], 4, TcoefTable::Intra)?;
    event_rvlc(rt, b"five zeros left", &[0xE0], 3, TcoefTable::Intra)?;
    event_rvlc(
        rt,
        b"fourteen bits of a code of fifteen, intra",
        &[0xCF, 0xFE],
        2,
        TcoefTable::Intra,
    )?;
    event_rvlc(
        rt,
        b"fourteen bits of a code of fifteen, inter",
        &[0xCF, 0xFE],
        2,
        TcoefTable::Inter,
    )?;
    event_rvlc(
        rt,
        b"fourteen bits of no code",
        &[0xCF, 0xFF],
        2,
        TcoefTable::Intra,
    )?;
    event_rvlc(
        rt,
        b"reversible code without its sign",
        &[0xFB],
        4,
        TcoefTable::Intra,
    )?;
    event_rvlc(
        rt,
        b"reversible escape alone",
        &[0xE1],
        3,
        TcoefTable::Intra,
    )
}

// Reversible escapes, after a code that is none.
fn reversible_escapes(rt: &impl Print) -> io::Result<()> {
    event_rvlc(rt, b"reversible code", &[0xB8], 0, TcoefTable::Intra)?;
    event_rvlc(
        rt,
        b"reversible escape",
        &[0x0C, 0x08, 0x05, 0x84],
        0,
        TcoefTable::Intra,
    )?;
    event_rvlc(
        rt,
        b"reversible delimiter 0001",
        &[0x0C, 0x08, 0x05, 0x8C],
        0,
        TcoefTable::Intra,
    )?;
    event_rvlc(
        rt,
        b"reversible magnitude 0",
        &[0x0C, 0x08, 0x00, 0x84],
        0,
        TcoefTable::Intra,
    )?;
    event_rvlc(
        rt,
        b"reversible magnitude 0, delimiter 0001",
        &[0x0C, 0x08, 0x00, 0x8C],
        0,
        TcoefTable::Intra,
    )?;
    event_rvlc(
        rt,
        b"reversible magnitude 0, no sign",
        &[0xE1, 0x81, 0x00, 0x10],
        3,
        TcoefTable::Intra,
    )
}

// Reversible escapes with a marker 0.
fn reversible_markers(rt: &impl Print) -> io::Result<()> {
    event_rvlc(
        rt,
        b"reversible first marker 0",
        &[0x0C, 0x00, 0x05, 0x84],
        0,
        TcoefTable::Intra,
    )?;
    event_rvlc(
        rt,
        b"reversible second marker 0",
        &[0x0C, 0x08, 0x05, 0x04],
        0,
        TcoefTable::Intra,
    )
}

// How plain lists end.
fn plain_list_ends(rt: &impl Print) -> io::Result<()> {
    list(rt, b"no bits left", &[0xFF], 8, true)?;
    list(
        rt,
        b"after a DC, run 63 without last, no bits",
        &[0xC1, 0xEF, 0xE0, 0x0B],
        2,
        true,
    )?;
    list(
        rt,
        b"after a DC, run 63 without last, then no code",
        &[0xC1, 0xEF, 0xE0, 0x0B, 0x00, 0x00],
        2,
        true,
    )?;
    list(
        rt,
        b"after a DC, run 63 without last, then a cut code",
        &[0xC1, 0xEF, 0xE0, 0x0B, 0x00],
        2,
        true,
    )?;
    list(
        rt,
        b"without a DC, two events",
        &[0xF0, 0x78, 0x28, 0x02, 0xC1, 0xF0, 0xE0, 0x0B],
        4,
        false,
    )?;
    list(rt, b"start past the end", &[0xFF], 9, true)
}

// Where plain lists land: the position after it, then each place with its level.
fn plain_landings(rt: &impl Print) -> io::Result<()> {
    list(
        rt,
        b"after a DC, last, run 62",
        &[0xC1, 0xFF, 0xA0, 0x0B],
        2,
        true,
    )?;
    list(
        rt,
        b"after a DC, last, run 63",
        &[0xC1, 0xFF, 0xE0, 0x0B],
        2,
        true,
    )?;
    list(
        rt,
        b"without a DC, last, run 63",
        &[0xC1, 0xFF, 0xE0, 0x0B],
        2,
        false,
    )?;
    list(
        rt,
        b"after a DC, run 63 twice",
        &[0xF0, 0x7B, 0xF8, 0x02, 0xC1, 0xFF, 0xE0, 0x0B],
        4,
        true,
    )?;
    list(
        rt,
        b"after a DC, run 62 and one more",
        &[0xF0, 0x7B, 0xE8, 0x02, 0xC1, 0xF0, 0x20, 0x0B],
        4,
        true,
    )
}

// How reversible lists end.
fn reversible_list_ends(rt: &impl Print) -> io::Result<()> {
    list_rvlc(rt, b"no bits left", &[0xFF], 8, true)?;
    list_rvlc(
        rt,
        b"after a DC, run 63 without last, no bits",
        &[0xC2, 0xFE, 0x01, 0x60],
        2,
        true,
    )?;
    list_rvlc(
        rt,
        b"after a DC, run 63 without last, then no code",
        &[0xC2, 0xFE, 0x01, 0x60, 0x00, 0x00],
        2,
        true,
    )?;
    list_rvlc(
        rt,
        b"after a DC, run 63 without last, then a cut code",
        &[0xC2, 0xFE, 0x01, 0x60, 0x7F],
        2,
        true,
    )?;
    list_rvlc(
        rt,
        b"without a DC, two events",
        &[0xF0, 0x82, 0x80, 0x58, 0x03, 0x0E, 0x01, 0x60],
        4,
        false,
    )?;
    list_rvlc(rt, b"start past the end", &[0xFF], 9, true)
}

// Where reversible lists land.
fn reversible_landings(rt: &impl Print) -> io::Result<()> {
    list_rvlc(
        rt,
        b"after a DC, last, run 62",
        &[0xC3, 0xFA, 0x01, 0x60],
        2,
        true,
    )?;
    list_rvlc(
        rt,
        b"after a DC, last, run 63",
        &[0xC3, 0xFE, 0x01, 0x60],
        2,
        true,
    )?;
    list_rvlc(
        rt,
        b"without a DC, last, run 63",
        &[0xC3, 0xFE, 0x01, 0x60],
        2,
        false,
    )?;
    list_rvlc(
        rt,
        b"after a DC, run 63 twice",
        &[0xF0, 0xBF, 0x80, 0x58, 0x03, 0xFE, 0x01, 0x60],
        4,
        true,
    )?;
    list_rvlc(
        rt,
        b"after a DC, run 62 and one more",
        &[0xF0, 0xBE, 0x80, 0x58, 0x03, 0x02, 0x01, 0x60],
        4,
        true,
    )
}

// Each spelling in one list.
fn spellings_in_lists(rt: &impl Print) -> io::Result<()> {
    list(
        rt,
        b"after a DC, a plain event, types 1, 2 and 3",
        &[0x80, 0xD4, 0x1D, 0x01, 0xF0, 0xA0, 0x0B],
        0,
        true,
    )?;
    list_rvlc(
        rt,
        b"after a DC, two reversible codes and an escape",
        &[0xC1, 0x86, 0x04, 0x02, 0xC0],
        0,
        true,
    )
}

fn main(rt: HostRuntime) -> io::Result<()> {
    dc_without_a_code(&rt)?;
    dc_cut_codes(&rt)?;
    dc_examples(&rt)?;
    event_without_bits(&rt)?;
    event_cut_codes(&rt)?;
    event_examples(&rt)?;
    event_escapes(&rt)?;
    event_cut_type_1(&rt)?;
    event_cut_type_2(&rt)?;
    reversible_without_bits(&rt)?;
    reversible_cut_codes(&rt)?;
    reversible_escapes(&rt)?;
    reversible_markers(&rt)?;
    plain_list_ends(&rt)?;
    plain_landings(&rt)?;
    reversible_list_ends(&rt)?;
    reversible_landings(&rt)?;
    spellings_in_lists(&rt)?;
    header::all(&rt)
}
