// The lines that are said.
ghost use Rattle.std.specs.Prelude.{◌≡◌, ◌+◌, ◌≤◌, length};
ghost use Rattle.still_lines.specs.Text.{end_text, mb_refused_text, mb_text, picture_refused_text, picture_text, place_text, said, span_text};

use crate::span::Span;
use crate::text::Text;

pub(crate) fn end_line(accepted: u32) -> Text
    ensures { (said result ≡ end_text accepted) × (result.len ≤ 27) }
{
    let t = crate::text::empty();
    let n = crate::text::numbered(t, b"(end ", accepted as u64);
    crate::text::word(n, b")\n")
}

// After what was said before it.
pub(crate) fn picture_line(before: Text, w: u32, h: u32, d: u32, m: u32) -> Text
    requires { before.len ≤ 27 }
    ensures { (said result ≡ picture_text (said before) w h d m) × (result.len ≤ 256) }
{
    let width = crate::text::numbered(before, b"(picture ", w as u64);
    let height = crate::text::numbered(width, b" ", h as u64);
    let depth = crate::text::numbered(height, b" ", d as u64);
    let method = crate::text::numbered(depth, b" ", m as u64);
    crate::text::word(method, b")\n")
}

pub(crate) fn picture_refused(n: u32) -> Text
    ensures { (said result ≡ picture_refused_text n) × (result.len ≤ 256) }
{
    let t = crate::text::empty();
    let number = crate::text::numbered(t, b"(picture refused ", n as u64);
    crate::text::word(number, b")\n")
}

// The place that is due.
fn place(column: u32, row: u32) -> Text
    ensures { (said result ≡ place_text column row) × (result.len ≤ 45) }
{
    let t = crate::text::empty();
    let c = crate::text::numbered(t, b"(mb ", column as u64);
    crate::text::numbered(c, b" ", row as u64)
}

pub(crate) fn mb_refused(column: u32, row: u32, n: u32) -> Text
    ensures { (said result ≡ mb_refused_text column row n) × (result.len ≤ 256) }
{
    let at = place(column, row);
    let number = crate::text::numbered(at, b" (refused ", n as u64);
    crate::text::word(number, b"))\n")
}

// The least and the greatest sample after a word.
fn spanned(t: Text, w: &[u8], s: Span) -> Text
    requires { t.len + length w.now + 43 ≤ 256 }
    ensures { (said result ≡ span_text (said t) w.now s.least s.greatest) × (result.len ≤ t.len + length w.now + 43) }
{
    let low = crate::text::signed(t, w, s.least);
    crate::text::signed(low, b" ", s.greatest)
}

pub(crate) fn mb_line(column: u32, row: u32, bits: usize, luma: Span, cb: Span, cr: Span) -> Text
    ensures { (said result ≡ mb_text column row bits luma.least luma.greatest cb.least cb.greatest cr.least cr.greatest) × (result.len ≤ 256) }
{
    let at = place(column, row);
    let counted = crate::text::numbered(at, b" (bits ", bits as u64);
    let with_luma = spanned(counted, b") (luma ", luma);
    let with_cb = spanned(with_luma, b") (cb ", cb);
    let with_cr = spanned(with_cb, b") (cr ", cr);
    crate::text::word(with_cr, b"))\n")
}
