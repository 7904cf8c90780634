// What is said to each line, and the state between lines.
ghost use Rattle.std.specs.Prelude.{◌≡◌, ◌≤◌, length};
ghost use Rattle.forms.specs.Reading.{data_after, room_for_data};
ghost use Rattle.picture.specs.Call.{answer_out, samples_out, store_out};
ghost use Rattle.still_lines.specs.Still.{column_of, context_of, end_said, header_of, input_of, is_skipped, opened_by, row_of, samples_after, still_after, still_decoded, still_opened, store_after, text_after, text_decoded, text_opened, type_of, unopened};
ghost use Rattle.still_lines.specs.Text.{said};

use crate::text::Text;
use bits::Cursor;
use forms::{Kind, Line};
use idct::HalfIntegerRounding;
use macroblock::{DerivedMbType, MacroblockHeader};
use picture::{MacroblockContext, Picture};

// Whether a picture is open, and which.
#[derive(Clone, Copy)]
pub struct Still {
    pub has_picture: bool,
    pub picture: Picture,
}

// The state after a line, and what is said to it.
#[derive(Clone, Copy)]
pub(crate) struct Said {
    pub still: Still,
    pub text: Text,
}

// No picture yet.
pub(crate) fn start() -> Still
    ensures { result ≡ unopened }
{
    Still {
        has_picture: false,
        picture: Picture {
            width: 1,
            height: 1,
            bits_per_pixel: 8,
            quant_type: false,
            accepted: 0,
        },
    }
}

// The `end` line of an open picture, before the next and at the end of the input.
pub(crate) fn ended(s: Still) -> Text
    ensures { (said result ≡ end_said s) × (result.len ≤ 27) }
{
    if s.has_picture {
        crate::say::end_line(s.picture.accepted)
    } else {
        crate::text::empty()
    }
}

fn opened(s: Still, w: u32, h: u32, d: u32, m: u32) -> Said
    ensures { (result.still ≡ still_opened s (opened_by w h d m)) × ((said result.text ≡ text_opened s w h d m (opened_by w h d m)) × (result.text.len ≤ 256)) }
{
    match Picture::open(w, h, d, m == 1) {
        Err(e) => Said {
            still: s,
            text: crate::say::picture_refused(e.number()),
        },
        Ok(picture) => {
            let before = ended(s);
            Said {
                still: Still {
                    has_picture: true,
                    picture,
                },
                text: crate::say::picture_line(before, w, h, d, m),
            }
        }
    }
}

fn type_of(kind: Kind) -> DerivedMbType
    ensures { result ≡ type_of kind }
{
    match kind {
        Kind::Intra => DerivedMbType::Intra,
        Kind::IntraQ => DerivedMbType::IntraQ,
        Kind::Inter => DerivedMbType::Inter,
        Kind::InterQ => DerivedMbType::InterQ,
        Kind::Inter4V => DerivedMbType::Inter4V,
        Kind::Missing | Kind::Skipped => DerivedMbType::Missing,
    }
}

fn is_skipped(kind: Kind) -> bool
    ensures { result ≡ is_skipped kind }
{
    matches!(kind, Kind::Skipped)
}

fn header_of(kind: Kind, ac_pred: u32, cbpy: u32, cbpc: u32) -> MacroblockHeader
    ensures { result ≡ header_of kind ac_pred cbpy cbpc }
{
    let mb_type = type_of(kind);
    MacroblockHeader {
        not_coded: is_skipped(kind),
        mb_type,
        cbpc: (cbpc % 256) as u8,
        ac_pred_flag: ac_pred == 1,
        cbpy: (cbpy % 256) as u8,
    }
}

fn context_of(q: u32, ac_pred: u32) -> MacroblockContext
    ensures { result ≡ context_of q ac_pred }
{
    MacroblockContext {
        quantiser_scale: q,
        ac_pred_flag: ac_pred == 1,
        alternate_vertical_scan: false,
        intra_mismatch_exempt: false,
        idct_rounding: HalfIntegerRounding::AWAY_FROM_ZERO,
        use_intra_dc_vlc: true,
        reversible_vlc: false,
    }
}

fn column_of(p: Picture) -> u32
    ensures { result ≡ column_of p }
{
    if p.width == 0 {
        return 0;
    }
    p.accepted % p.width
}

fn row_of(p: Picture) -> u32
    ensures { result ≡ row_of p }
{
    if p.width == 0 {
        return 0;
    }
    p.accepted / p.width
}

// A macroblock of the open picture.
fn decoded(
    s: Still,
    q: u32,
    ac_pred: u32,
    kind: Kind,
    cbpy: u32,
    cbpc: u32,
    data: &[u8],
    samples: &mut [i32],
    store: &mut [i32],
) -> Said
    ensures still_value { (result.still ≡ still_decoded s (answer_out s.picture (input_of q ac_pred kind cbpy cbpc «data».now samples.old) store.old)) × ((said result.text ≡ text_decoded s.picture (samples_out s.picture (input_of q ac_pred kind cbpy cbpc «data».now samples.old) store.old) (answer_out s.picture (input_of q ac_pred kind cbpy cbpc «data».now samples.old) store.old)) × (result.text.len ≤ 256)) }
    ensures samples { samples.new ≡ samples_out s.picture (input_of q ac_pred kind cbpy cbpc «data».now samples.old) store.old }
    ensures store { store.new ≡ store_out s.picture (input_of q ac_pred kind cbpy cbpc «data».now samples.old) store.old }
{
    let p = s.picture;
    let column = column_of(p);
    let row = row_of(p);
    let header = header_of(kind, ac_pred, cbpy, cbpc);
    let context = context_of(q, ac_pred);
    let matrix = block::default_intra_quant_matrix();
    let c = Cursor { bit_pos: 0 };
    match picture::decode_macroblock(p, data, c, header, context, matrix, samples, store) {
        Err(e) => Said {
            still: s,
            text: crate::say::mb_refused(column, row, e.number()),
        },
        Ok(told) => {
            let luma = crate::span::span_of(&*samples, 0, 256);
            let cb = crate::span::span_of(&*samples, 256, 320);
            let cr = crate::span::span_of(&*samples, 320, samples::SAMPLES);
            Said {
                still: Still {
                    has_picture: s.has_picture,
                    picture: told.picture,
                },
                text: crate::say::mb_line(column, row, told.bits, luma, cb, cr),
            }
        }
    }
}

// One line.
pub(crate) fn answer(
    s: Still,
    line: &[u8],
    data: &mut [u8],
    samples: &mut [i32],
    store: &mut [i32],
) -> Said
    requires { room_for_data ≤ length «data».old }
    ensures still_value { (result.still ≡ still_after s samples.old store.old line.now) × ((said result.text ≡ text_after s samples.old store.old line.now) × (result.text.len ≤ 256)) }
    ensures bytes { «data».new ≡ data_after line.now «data».old }
    ensures samples { samples.new ≡ samples_after s samples.old store.old line.now }
    ensures store { store.new ≡ store_after s samples.old store.old line.now }
{
    match forms::parse(line, data) {
        Line::Malformed | Line::TooShort => Said {
            still: s,
            text: crate::text::empty(),
        },
        Line::Picture(w, h, d, m) => opened(s, w, h, d, m),
        Line::Macroblock(q, ac_pred, kind, cbpy, cbpc, n) => {
            if !s.has_picture {
                return Said {
                    still: s,
                    text: crate::text::empty(),
                };
            }
            decoded(s, q, ac_pred, kind, cbpy, cbpc, &data[..n], samples, store)
        }
    }
}
