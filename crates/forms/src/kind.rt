// The words for a macroblock's type.
ghost use Rattle.std.specs.Prelude.{◌≡◌, ◌≤◌, length};
ghost use Rattle.forms.specs.Forms.{kind_in};
ghost use Rattle.forms.specs.Reading.{part};
ghost use Rattle.forms.specs.Words.{same};

// `Missing` is the word none, `Skipped` a macroblock that is not coded.
#[derive(Clone, Copy)]
pub enum Kind {
    Intra,
    IntraQ,
    Inter,
    InterQ,
    Inter4V,
    Missing,
    Skipped,
}

// Whether the bytes from `from` up to `to` are a word.
pub(crate) fn is_word(line: &[u8], from: usize, to: usize, word: &[u8]) -> bool
    requires { (from ≤ to) × (to ≤ length line.now) }
    ensures { result ≡ same (part line.now from to) word.now }
{
    &line[from..to] == word
}

pub(crate) fn read_kind(line: &[u8], from: usize, to: usize) -> Option<Kind>
    requires { (from ≤ to) × (to ≤ length line.now) }
    ensures { result ≡ kind_in (part line.now from to) }
{
    if is_word(line, from, to, b"intra") {
        Some(Kind::Intra)
    } else if is_word(line, from, to, b"intraq") {
        Some(Kind::IntraQ)
    } else if is_word(line, from, to, b"inter") {
        Some(Kind::Inter)
    } else if is_word(line, from, to, b"interq") {
        Some(Kind::InterQ)
    } else if is_word(line, from, to, b"inter4v") {
        Some(Kind::Inter4V)
    } else if is_word(line, from, to, b"none") {
        Some(Kind::Missing)
    } else if is_word(line, from, to, b"skipped") {
        Some(Kind::Skipped)
    } else {
        None
    }
}
