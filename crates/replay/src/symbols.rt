// DC parts, events and event lists.
use bits::Cursor;
use codes::{DcComponent, TcoefTable};
use dc_parts::IntraDcDifferential;
use events::{AcEvent, Spellings};
use fields::TextureParseError;
use std::io;

fn component(chrominance: bool) -> DcComponent {
    if chrominance {
        DcComponent::Chrominance
    } else {
        DcComponent::Luminance
    }
}

fn table(inter: bool) -> TcoefTable {
    if inter {
        TcoefTable::Inter
    } else {
        TcoefTable::Intra
    }
}

pub(crate) fn cursor(line: &[i32], base: usize) -> Cursor {
    Cursor {
        bit_pos: crate::line::size(line, base, 0),
    }
}

fn dc_said(
    rt: &impl Print,
    answer: Result<(IntraDcDifferential, Cursor), TextureParseError>,
) -> io::Result<()> {
    match answer {
        Err(e) => crate::say::refused(rt, e.number(), e.figure()),
        Ok((d, next)) => crate::say::dc_part(rt, d.size, d.differential, next.bit_pos),
    }
}

pub(crate) fn dc(rt: &impl Print, line: &[i32]) -> io::Result<()> {
    let mut data = crate::line::space();
    let n = crate::line::data_of(line, 3, &mut data);
    let component = component(crate::line::flag(line, 1, 0));
    dc_said(
        rt,
        texture::decode_intra_dc(&data[..n], cursor(line, 2), component),
    )
}

fn read_event(
    reversible: bool,
    data: &[u8],
    c: Cursor,
    table: TcoefTable,
) -> Result<(AcEvent, Cursor), TextureParseError> {
    if reversible {
        texture::decode_ac_event_rvlc(data, c, table)
    } else {
        texture::decode_ac_event(data, c, table)
    }
}

fn event_said(
    rt: &impl Print,
    answer: Result<(AcEvent, Cursor), TextureParseError>,
) -> io::Result<()> {
    match answer {
        Err(e) => crate::say::refused(rt, e.number(), e.figure()),
        Ok((v, next)) => crate::say::event(rt, v.last, v.run, v.level, next.bit_pos),
    }
}

pub(crate) fn event(rt: &impl Print, line: &[i32]) -> io::Result<()> {
    let mut data = crate::line::space();
    let n = crate::line::data_of(line, 4, &mut data);
    let table = table(crate::line::flag(line, 2, 0));
    let reversible = crate::line::flag(line, 1, 0);
    event_said(
        rt,
        read_event(reversible, &data[..n], cursor(line, 3), table),
    )
}

fn read_events(
    reversible: bool,
    data: &[u8],
    c: Cursor,
    table: TcoefTable,
    dc_coded: bool,
    qfs: &mut [i32; 64],
) -> Result<(Cursor, Spellings), TextureParseError> {
    if reversible {
        texture::decode_ac_events_rvlc(data, c, table, dc_coded, qfs)
    } else {
        texture::decode_ac_events(data, c, table, dc_coded, qfs)
    }
}

fn list_said(
    rt: &impl Print,
    answer: Result<(Cursor, Spellings), TextureParseError>,
    qfs: [i32; 64],
) -> io::Result<()> {
    match answer {
        Err(e) => {
            crate::say::refused(rt, e.number(), e.figure())?;
            crate::say::places_kept(rt, qfs)
        }
        Ok((next, _)) => {
            crate::say::read(rt, next.bit_pos)?;
            crate::say::places(rt, qfs)
        }
    }
}

pub(crate) fn list(rt: &impl Print, line: &[i32]) -> io::Result<()> {
    let mut data = crate::line::space();
    let n = crate::line::data_of(line, 5, &mut data);
    let table = table(crate::line::flag(line, 2, 0));
    let reversible = crate::line::flag(line, 1, 0);
    let dc_coded = crate::line::flag(line, 3, 0);
    let mut qfs = crate::say::lent_places();
    let answer = read_events(
        reversible,
        &data[..n],
        cursor(line, 4),
        table,
        dc_coded,
        &mut qfs,
    );
    list_said(rt, answer, qfs)
}
