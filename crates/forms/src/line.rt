// A line as a form.
ghost use Rattle.std.specs.Prelude.{◌≡◌, ◌+◌, ◌≤◌, length};
ghost use Rattle.forms.specs.Forms.{longest, mb_form, picture_form};
ghost use Rattle.forms.specs.Reading.{data_after, data_form, data_of, line_of, parsed, pattern_form, room_for_data, words_from};

use crate::kind::Kind;

// A picture: width, height, depth, method. A macroblock: quantiser, ac_pred, type, cbpy, cbpc, and how many bytes of data.
// `TooShort` (14): fewer than 16,384 bytes were lent for data.
#[derive(Clone, Copy)]
pub enum Line {
    Malformed,
    TooShort,
    Picture(u32, u32, u32, u32),
    Macroblock(u32, u32, Kind, u32, u32, usize),
}

fn picture(line: &[u8], from: usize, to: usize) -> Line
    requires { (from ≤ to + 1) × ((to ≤ length line.now) × (length line.now ≤ longest)) }
    ensures { result ≡ line_of (picture_form (words_from line.now from to)) }
{
    let Some((width, at_height)) = crate::field::number(line, from, to, 65535) else {
        return Line::Malformed;
    };
    let Some((height, at_depth)) = crate::field::number(line, at_height, to, 65535) else {
        return Line::Malformed;
    };
    let Some((depth, at_method)) = crate::field::number(line, at_depth, to, 65535) else {
        return Line::Malformed;
    };
    let Some((method, after)) = crate::field::number(line, at_method, to, 2) else {
        return Line::Malformed;
    };
    if method == 0 || after <= to {
        return Line::Malformed;
    }
    Line::Picture(width, height, depth, method)
}

// The last word of a macroblock, its data, after what stands before it.
fn with_data(
    line: &[u8],
    from: usize,
    to: usize,
    q: u32,
    ac_pred: u32,
    kind: Kind,
    cbpy: u32,
    cbpc: u32,
    data: &mut [u8],
) -> Line
    requires { (from ≤ to + 1) × ((to ≤ length line.now) × ((length line.now ≤ longest) × (room_for_data ≤ length «data».old))) }
    ensures value { result ≡ line_of (data_form q ac_pred kind cbpy cbpc (words_from line.now from to)) }
    ensures bytes { «data».new ≡ data_of (data_form q ac_pred kind cbpy cbpc (words_from line.now from to)) «data».old }
{
    if to < from
        || crate::field::word_end(line, from, to) < to
        || !crate::hex::is_data(line, from, to)
    {
        return Line::Malformed;
    }
    let n = crate::hex::data_of(line, from, to, data);
    Line::Macroblock(q, ac_pred, kind, cbpy, cbpc, n)
}

// The words after the type.
fn with_pattern(
    line: &[u8],
    from: usize,
    to: usize,
    q: u32,
    ac_pred: u32,
    kind: Kind,
    data: &mut [u8],
) -> Line
    requires { (from ≤ to + 1) × ((to ≤ length line.now) × ((length line.now ≤ longest) × (room_for_data ≤ length «data».old))) }
    ensures value { result ≡ line_of (pattern_form q ac_pred kind (words_from line.now from to)) }
    ensures bytes { «data».new ≡ data_of (pattern_form q ac_pred kind (words_from line.now from to)) «data».old }
{
    let Some((cbpy, at_cbpc)) = crate::field::number(line, from, to, 255) else {
        return Line::Malformed;
    };
    let Some((cbpc, at_data)) = crate::field::number(line, at_cbpc, to, 255) else {
        return Line::Malformed;
    };
    with_data(line, at_data, to, q, ac_pred, kind, cbpy, cbpc, data)
}

fn macroblock(line: &[u8], from: usize, to: usize, data: &mut [u8]) -> Line
    requires { (from ≤ to + 1) × ((to ≤ length line.now) × ((length line.now ≤ longest) × (room_for_data ≤ length «data».old))) }
    ensures value { result ≡ line_of (mb_form (words_from line.now from to)) }
    ensures bytes { «data».new ≡ data_of (mb_form (words_from line.now from to)) «data».old }
{
    let Some((quantiser, at_flag)) = crate::field::number(line, from, to, 65535) else {
        return Line::Malformed;
    };
    let Some((ac_pred, at_kind)) = crate::field::number(line, at_flag, to, 1) else {
        return Line::Malformed;
    };
    if to < at_kind {
        return Line::Malformed;
    }
    let e = crate::field::word_end(line, at_kind, to);
    let Some(kind) = crate::kind::read_kind(line, at_kind, e) else {
        return Line::Malformed;
    };
    with_pattern(line, e + 1, to, quantiser, ac_pred, kind, data)
}

impl Line {
    // The longest line that is a form, and what its data fits into.
    pub const LONGEST: usize = 32768;

    pub const DATA: usize = 16384;
}

// The form of a line; of a macroblock the data goes into the first bytes of `data`, else that is kept. 14 where fewer
// than 16,384 bytes are lent.
pub fn parse(line: &[u8], data: &mut [u8]) -> Line
    ensures value { result ≡ parsed line.now «data».old }
    ensures bytes { «data».new ≡ data_after line.now «data».old }
{
    if data.len() < Line::DATA {
        return Line::TooShort;
    }
    let n = line.len();
    if Line::LONGEST < n || n < 2 || line[0] != b'(' || line[n - 1] != b')' {
        return Line::Malformed;
    }
    let to = n - 1;
    let e = crate::field::word_end(line, 1, to);
    if crate::kind::is_word(line, 1, e, b"picture") {
        picture(line, e + 1, to)
    } else if crate::kind::is_word(line, 1, e, b"mb") {
        macroblock(line, e + 1, to, data)
    } else {
        Line::Malformed
    }
}
