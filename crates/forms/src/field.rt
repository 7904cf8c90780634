// One word of a line as a number.
ghost use Rattle.std.specs.Prelude.{◌≡◌, ◌+◌, ◌≤◌, length};
ghost use Rattle.forms.specs.Forms.{longest};
ghost use Rattle.forms.specs.Reading.{Says, end_of, part};
ghost use Rattle.forms.specs.Words.{number_in};

// Where the word that begins at `from` ends: at a space, or at `to`.
pub(crate) fn word_end(line: &[u8], from: usize, to: usize) -> usize
    requires { (from ≤ to) × (to ≤ length line.now) }
    ensures { (result ≡ end_of line.now from to) × ((from ≤ result) × (result ≤ to)) }
{
    let rest = &line[from..to];
    from + rest.iter().position(|b| *b == b' ').unwrap_or(rest.len())
}

// The bytes from `from` up to `to` as a number up to `most`.
fn value(line: &[u8], from: usize, to: usize, most: u32) -> Option<u32>
    requires { (from ≤ to) × ((to ≤ length line.now) × (most ≤ 65535)) }
    ensures { result ≡ number_in most (part line.now from to) }
{
    if from == to {
        return None;
    }
    let mut v: u32 = 0;
    for b in &line[from..to] {
        if !b.is_ascii_digit() {
            return None;
        }
        // A number past `most` stays one past it.
        v = u32::min(10 * v + u32::from(*b - b'0'), most + 1);
    }
    if v <= most { Some(v) } else { None }
}

// The next word as a number up to `most`.
pub(crate) fn number(line: &[u8], from: usize, to: usize, most: u32) -> Option<(u32, usize)>
    requires { (from ≤ to + 1) × ((to ≤ length line.now) × ((length line.now ≤ longest) × (most ≤ 65535))) }
    ensures { Says (number_in most) line.now from to result }
{
    if to < from {
        return None;
    }
    let e = word_end(line, from, to);
    let v = value(line, from, e, most)?;
    Some((v, e + 1))
}
