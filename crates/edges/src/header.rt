// An I-VOP's header out of bits, and macroblocks with their header in their bits.
use assembly::BlockAssemblyError;
use block::MacroblockTextureContext;
use coefficients::BlockPredictors;
use headers::{DerivedMbType, HeaderFields};
use idct::HalfIntegerRounding;
use macroblock::WholeDecoded;
use std::io;

fn refused(rt: &impl Print, number: u32, figure: u32) -> io::Result<()> {
    crate::text(rt, b" refused")?;
    crate::number(rt, number as u64)?;
    crate::number(rt, figure as u64)
}

fn kind(rt: &impl Print, t: DerivedMbType) -> io::Result<()> {
    match t {
        DerivedMbType::Missing => crate::text(rt, b" none"),
        DerivedMbType::Inter => crate::text(rt, b" inter"),
        DerivedMbType::InterQ => crate::text(rt, b" inter+q"),
        DerivedMbType::Inter4V => crate::text(rt, b" inter4v"),
        DerivedMbType::Intra => crate::text(rt, b" intra"),
        DerivedMbType::IntraQ => crate::text(rt, b" intra+q"),
    }
}

// Type, cbpc, ac_pred_flag, cbpy, the change and the quantiser after it.
fn said(rt: &impl Print, fields: HeaderFields) -> io::Result<()> {
    let header = fields.header;
    let mb_type = header.mb_type;
    if header.not_coded {
        crate::text(rt, b" not coded")?;
    }
    kind(rt, mb_type)?;
    crate::number(rt, header.cbpc as u64)?;
    crate::flag(rt, header.ac_pred_flag)?;
    crate::number(rt, header.cbpy as u64)?;
    crate::signed(rt, fields.dquant_delta)?;
    crate::number(rt, fields.quantiser_scale as u64)
}

fn header(
    rt: &impl Print,
    name: &[u8],
    data: &[u8],
    at: usize,
    quantiser_scale: u32,
) -> io::Result<()> {
    crate::named(rt, b"header", name)?;
    let answer = headers::parse_macroblock_header(data, crate::at_bit(at), quantiser_scale);
    match answer {
        Err(e) => refused(rt, e.number(), e.figure())?,
        Ok((fields, next)) => {
            said(rt, fields)?;
            crate::number(rt, next.bit_pos as u64)?;
        }
    }
    crate::text(rt, b"\n")
}

// The least and the greatest.
fn ends(rt: &impl Print, samples: &[i32]) -> io::Result<()> {
    let mut least = i32::MAX;
    let mut greatest = i32::MIN;
    for z in samples {
        least = least.min(*z);
        greatest = greatest.max(*z);
    }
    crate::signed(rt, least)?;
    crate::signed(rt, greatest)
}

fn whole(data: &[u8], at: usize, samples: &mut [i32]) -> Result<WholeDecoded, BlockAssemblyError> {
    let context = MacroblockTextureContext {
        quantiser_scale: 8,
        bits_per_pixel: 8,
        quant_type: false,
        ac_pred_flag: false,
        alternate_vertical_scan: false,
        intra_mismatch_exempt: false,
        idct_rounding: HalfIntegerRounding::AWAY_FROM_ZERO,
    };
    macroblock::decode_intra_macroblock_with_header(
        data,
        crate::at_bit(at),
        true,
        false,
        context,
        BlockPredictors::outside(8, 8),
        block::default_intra_quant_matrix(),
        samples,
    )
}

// Alone, with a quantiser of 8 before it.
fn macroblock(rt: &impl Print, name: &[u8], data: &[u8], at: usize) -> io::Result<()> {
    crate::named(rt, b"macroblock", name)?;
    let mut samples = [0i32; 384];
    let answer = whole(data, at, &mut samples);
    match answer {
        Err(e) => refused(rt, e.number(), e.figure())?,
        Ok(
            WholeDecoded {
                bits,
                next,
                spellings: _,
                fields,
            },
        ) => {
            said(rt, fields)?;
            crate::number(rt, bits as u64)?;
            crate::number(rt, next.bit_pos as u64)?;
            ends(rt, &samples)?;
        }
    }
    crate::text(rt, b"\n")
}

// The header `1 0 0011` before the worked case 6DBF, and behind stuffing codes: type, cbpc, ac_pred_flag, cbpy, the change, the
// quantiser after it, and the position after the header.
fn worked_headers(rt: &impl Print) -> io::Result<()> {
    header(rt, b"before the worked case", &[0x8D, 0xB6, 0xFC], 0, 8)?;
    header(rt, b"one stuffing code", &[0x80, 0x63, 0x6D, 0xBF], 1, 8)?;
    header(
        rt,
        b"two stuffing codes",
        &[0x00, 0x80, 0x63, 0x6D, 0xBF],
        0,
        8,
    )?;
    header(rt, b"by itself", &[0xE3], 2, 8)
}

// Codes of mcbpc that say intra, with ac_pred_flag 1 and cbpy 15 behind them.
fn mcbpc_of_intra(rt: &impl Print) -> io::Result<()> {
    header(rt, b"mcbpc 1", &[0xFF], 4, 8)?;
    header(rt, b"mcbpc 001", &[0xCF], 2, 8)?;
    header(rt, b"mcbpc 010", &[0xD7], 2, 8)?;
    header(rt, b"mcbpc 011", &[0xDF], 2, 8)
}

// Those that say intra with a quantiser change, with dquant 00 behind them too.
fn mcbpc_with_a_change(rt: &impl Print) -> io::Result<()> {
    header(rt, b"mcbpc 0001", &[0xFE, 0x3C], 7, 8)?;
    header(rt, b"mcbpc 000001", &[0xF8, 0x3C], 5, 8)?;
    header(rt, b"mcbpc 000010", &[0xF8, 0x5C], 5, 8)?;
    header(rt, b"mcbpc 000011", &[0xF8, 0x7C], 5, 8)
}

// Rows 0 to 3 of cbpy.
fn cbpy_0_to_3(rt: &impl Print) -> io::Result<()> {
    header(rt, b"cbpy 0011", &[0xE3], 2, 8)?;
    header(rt, b"cbpy 00101", &[0xC5], 1, 8)?;
    header(rt, b"cbpy 00100", &[0xC4], 1, 8)?;
    header(rt, b"cbpy 1001", &[0xE9], 2, 8)
}

// Rows 4 to 7.
fn cbpy_4_to_7(rt: &impl Print) -> io::Result<()> {
    header(rt, b"cbpy 00011", &[0xC3], 1, 8)?;
    header(rt, b"cbpy 0111", &[0xE7], 2, 8)?;
    header(rt, b"cbpy 000010", &[0x82], 0, 8)?;
    header(rt, b"cbpy 1011", &[0xEB], 2, 8)
}

// Rows 8 to 11.
fn cbpy_8_to_11(rt: &impl Print) -> io::Result<()> {
    header(rt, b"cbpy 00010", &[0xC2], 1, 8)?;
    header(rt, b"cbpy 000011", &[0x83], 0, 8)?;
    header(rt, b"cbpy 0101", &[0xE5], 2, 8)?;
    header(rt, b"cbpy 1010", &[0xEA], 2, 8)
}

// Rows 12 to 15.
fn cbpy_12_to_15(rt: &impl Print) -> io::Result<()> {
    header(rt, b"cbpy 0100", &[0xE4], 2, 8)?;
    header(rt, b"cbpy 1000", &[0xE8], 2, 8)?;
    header(rt, b"cbpy 0110", &[0xE6], 2, 8)?;
    header(rt, b"cbpy 11", &[0xFB], 4, 8)
}

// Every dquant at the least quantiser.
fn dquant_at_1(rt: &impl Print) -> io::Result<()> {
    header(rt, b"dquant 00 at 1", &[0xF8, 0x8C], 5, 1)?;
    header(rt, b"dquant 01 at 1", &[0xF8, 0x8D], 5, 1)?;
    header(rt, b"dquant 10 at 1", &[0xF8, 0x8E], 5, 1)?;
    header(rt, b"dquant 11 at 1", &[0xF8, 0x8F], 5, 1)
}

// At the next one.
fn dquant_at_2(rt: &impl Print) -> io::Result<()> {
    header(rt, b"dquant 00 at 2", &[0xF8, 0x8C], 5, 2)?;
    header(rt, b"dquant 01 at 2", &[0xF8, 0x8D], 5, 2)?;
    header(rt, b"dquant 10 at 2", &[0xF8, 0x8E], 5, 2)?;
    header(rt, b"dquant 11 at 2", &[0xF8, 0x8F], 5, 2)
}

// At the last but one.
fn dquant_at_30(rt: &impl Print) -> io::Result<()> {
    header(rt, b"dquant 00 at 30", &[0xF8, 0x8C], 5, 30)?;
    header(rt, b"dquant 01 at 30", &[0xF8, 0x8D], 5, 30)?;
    header(rt, b"dquant 10 at 30", &[0xF8, 0x8E], 5, 30)?;
    header(rt, b"dquant 11 at 30", &[0xF8, 0x8F], 5, 30)
}

// At the greatest.
fn dquant_at_31(rt: &impl Print) -> io::Result<()> {
    header(rt, b"dquant 00 at 31", &[0xF8, 0x8C], 5, 31)?;
    header(rt, b"dquant 01 at 31", &[0xF8, 0x8D], 5, 31)?;
    header(rt, b"dquant 10 at 31", &[0xF8, 0x8E], 5, 31)?;
    header(rt, b"dquant 11 at 31", &[0xF8, 0x8F], 5, 31)
}

// A header of 13 bits, `0001 1 000010 10`, of which mcbpc or less is there.
fn cut_in_mcbpc(rt: &impl Print) -> io::Result<()> {
    header(rt, b"0 bits of 13", &[0xFF], 8, 8)?;
    header(rt, b"1 bit of 13", &[0xFE], 7, 8)?;
    header(rt, b"2 bits of 13", &[0xFC], 6, 8)?;
    header(rt, b"3 bits of 13", &[0xF8], 5, 8)?;
    header(rt, b"4 bits of 13", &[0xF1], 4, 8)
}

// The flag too, and some of cbpy.
fn cut_in_cbpy(rt: &impl Print) -> io::Result<()> {
    header(rt, b"5 bits of 13", &[0xE3], 3, 8)?;
    header(rt, b"6 bits of 13", &[0xC6], 2, 8)?;
    header(rt, b"7 bits of 13", &[0x8C], 1, 8)?;
    header(rt, b"8 bits of 13", &[0x18], 0, 8)?;
    header(rt, b"9 bits of 13", &[0xFE, 0x30], 7, 8)?;
    header(rt, b"10 bits of 13", &[0xFC, 0x61], 6, 8)
}

// All but dquant, half of it, and the whole header.
fn cut_in_dquant(rt: &impl Print) -> io::Result<()> {
    header(rt, b"11 bits of 13", &[0xF8, 0xC2], 5, 8)?;
    header(rt, b"12 bits of 13", &[0xF1, 0x85], 4, 8)?;
    header(rt, b"13 bits of 13", &[0xE3, 0x0A], 3, 8)
}

// At mcbpc: zeros, of which up to eight begin stuffing.
fn zeros_at_mcbpc(rt: &impl Print) -> io::Result<()> {
    header(rt, b"five zeros", &[0xE0], 3, 8)?;
    header(rt, b"six zeros", &[0xC0], 2, 8)?;
    header(rt, b"seven zeros", &[0x80], 1, 8)?;
    header(rt, b"eight zeros", &[0x00], 0, 8)?;
    header(rt, b"nine zeros", &[0xFE, 0x00], 7, 8)?;
    header(rt, b"ten zeros", &[0xFC, 0x00], 6, 8)
}

// At mcbpc: bits that begin no code.
fn ones_at_mcbpc(rt: &impl Print) -> io::Result<()> {
    header(rt, b"0000001", &[0x81], 1, 8)?;
    header(rt, b"00000001", &[0x01], 0, 8)?;
    header(rt, b"0000001 and more", &[0xF0, 0x3C], 4, 8)
}

// At cbpy: codes that are cut.
fn cut_at_cbpy(rt: &impl Print) -> io::Result<()> {
    header(rt, b"at cbpy 0", &[0xFC], 5, 8)?;
    header(rt, b"at cbpy 10", &[0xFA], 4, 8)?;
    header(rt, b"at cbpy 0000", &[0xE0], 2, 8)?;
    header(rt, b"at cbpy 00001", &[0xC1], 1, 8)
}

// At cbpy: bits that begin no code.
fn none_at_cbpy(rt: &impl Print) -> io::Result<()> {
    header(rt, b"at cbpy 00000", &[0xC0], 1, 8)?;
    header(rt, b"at cbpy 000001", &[0x81], 0, 8)?;
    header(rt, b"at cbpy 000000 and more", &[0xFE, 0x03], 6, 8)
}

// Behind stuffing: no bits, or a code that is cut.
fn end_behind_stuffing(rt: &impl Print) -> io::Result<()> {
    header(rt, b"one stuffing code, no bits", &[0xFE, 0x01], 7, 8)?;
    header(
        rt,
        b"two stuffing codes, no bits",
        &[0xFC, 0x02, 0x01],
        6,
        8,
    )?;
    header(
        rt,
        b"one stuffing code, eight zeros",
        &[0xFE, 0x01, 0x00],
        7,
        8,
    )?;
    header(
        rt,
        b"two stuffing codes, one zero",
        &[0xF8, 0x04, 0x02],
        5,
        8,
    )
}

// Behind stuffing: no code, or a header that is cut.
fn cut_behind_stuffing(rt: &impl Print) -> io::Result<()> {
    header(
        rt,
        b"one stuffing code, nine zeros",
        &[0xFC, 0x02, 0x00],
        6,
        8,
    )?;
    header(
        rt,
        b"two stuffing codes, 0000001",
        &[0xFE, 0x01, 0x00, 0x81],
        7,
        8,
    )?;
    header(
        rt,
        b"two stuffing codes, no flag",
        &[0xF8, 0x04, 0x03],
        5,
        8,
    )?;
    header(rt, b"one stuffing code, no dquant", &[0x00, 0x8F], 0, 8)
}

// Quantisers that are none, before any bit.
fn quantisers(rt: &impl Print) -> io::Result<()> {
    header(rt, b"quantiser 0", &[0xE3], 2, 0)?;
    header(rt, b"quantiser 32", &[0xE3], 2, 32)?;
    header(rt, b"quantiser 0, no bits", &[0xFF], 8, 0)?;
    header(rt, b"quantiser 32, nine zeros", &[0xFE, 0x00], 7, 32)
}

// A start past the end, and one at it.
fn starts(rt: &impl Print) -> io::Result<()> {
    header(rt, b"start past the end", &[0xFF], 9, 8)?;
    header(rt, b"start past the end, quantiser 0", &[0xFF], 9, 0)?;
    header(rt, b"no bits left", &[0xFF], 8, 8)
}

// The worked case with its header in its bits: what the header says, the number of bits, the position, the least and the greatest
// sample.
fn worked_macroblocks(rt: &impl Print) -> io::Result<()> {
    macroblock(rt, b"the worked case", &[0x8D, 0xB6, 0xFC], 0)?;
    macroblock(rt, b"one stuffing code", &[0x80, 0x63, 0x6D, 0xBF], 1)?;
    macroblock(
        rt,
        b"two stuffing codes",
        &[0x00, 0x80, 0x63, 0x6D, 0xBF],
        0,
    )?;
    macroblock(rt, b"without its last bit", &[0xF1, 0xB6, 0xDF], 3)
}

// The worked case cut, or without its header.
fn cut_macroblocks(rt: &impl Print) -> io::Result<()> {
    macroblock(rt, b"without its last two bits", &[0xF8, 0xDB, 0x6F], 4)?;
    macroblock(rt, b"its header alone", &[0xE3], 2)?;
    macroblock(rt, b"without its header", &[0x81, 0x6D, 0xBF], 1)?;
    macroblock(rt, b"its header cut", &[0xF1], 3)
}

pub(crate) fn all(rt: &impl Print) -> io::Result<()> {
    worked_headers(rt)?;
    mcbpc_of_intra(rt)?;
    mcbpc_with_a_change(rt)?;
    cbpy_0_to_3(rt)?;
    cbpy_4_to_7(rt)?;
    cbpy_8_to_11(rt)?;
    cbpy_12_to_15(rt)?;
    dquant_at_1(rt)?;
    dquant_at_2(rt)?;
    dquant_at_30(rt)?;
    dquant_at_31(rt)?;
    cut_in_mcbpc(rt)?;
    cut_in_cbpy(rt)?;
    cut_in_dquant(rt)?;
    zeros_at_mcbpc(rt)?;
    ones_at_mcbpc(rt)?;
    cut_at_cbpy(rt)?;
    none_at_cbpy(rt)?;
    end_behind_stuffing(rt)?;
    cut_behind_stuffing(rt)?;
    quantisers(rt)?;
    starts(rt)?;
    worked_macroblocks(rt)?;
    cut_macroblocks(rt)
}
