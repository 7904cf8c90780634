// An answer as nine numbers: the refusal's number or 0, its figure, the bits taken, the position after them, and the number
// of events of each spelling.
ghost use Rattle.std.specs.Prelude.{◌≡◌, ◌<◌};
ghost use Rattle.assembly.specs.Answer.{figure_of, number_of};
ghost use Rattle.vaxembro.specs.Answer.{accepted_as, answer_after, low, refused_as, spelling_in, told_alone, told_at, told_of};
ghost use Rattle.vaxembro.specs.Calls.{all_long};

use block::BlockAssemblyError;
use macroblock::MacroblockDecoded;
use picture::PictureDecoded;
use texture::Spellings;

// The numbers of an answer.
const ANSWER: usize = 9;

// Whether state or neighbours have `least` numbers, the matrix 64 and the answer its nine.
pub(crate) fn long_enough(least: usize, n: usize, w: usize, a: usize) -> bool
    ensures { result ≡ all_long least n w a }
{
    least <= n && 64 <= w && ANSWER <= a
}

#[derive(Clone, Copy)]
pub struct Told {
    pub number: u32,
    pub figure: u32,
    pub bits: usize,
    pub position: usize,
    pub spellings: Spellings,
}

pub(crate) fn refused(e: BlockAssemblyError, at: usize) -> Told
    ensures { result ≡ refused_as (number_of e) (figure_of e) at }
{
    Told {
        number: e.number(),
        figure: e.figure(),
        bits: 0,
        position: at,
        spellings: Spellings::none(),
    }
}

pub(crate) fn accepted(bits: usize, position: usize, spellings: Spellings) -> Told
    ensures { result ≡ accepted_as bits position spellings }
{
    Told {
        number: 0,
        figure: 0,
        bits,
        position,
        spellings,
    }
}

// Of a call in a picture that started at `at`.
pub(crate) fn told_in_picture(d: Result<PictureDecoded, BlockAssemblyError>, at: usize) -> Told
    ensures { result ≡ told_of d at }
{
    match d {
        Err(e) => refused(e, at),
        Ok(told) => accepted(told.bits, told.next.bit_pos, told.spellings),
    }
}

// Of a macroblock read alone.
pub(crate) fn told_alone(d: Result<MacroblockDecoded, BlockAssemblyError>, at: usize) -> Told
    ensures { result ≡ told_alone d at }
{
    match d {
        Err(e) => refused(e, at),
        Ok(told) => accepted(told.bits, told.next.bit_pos, told.spellings),
    }
}

// Into the lent answer, where it is long enough; its number is handed on.
pub(crate) fn tell(answer: &mut [usize], t: Told) -> u32
    ensures { (result ≡ t.number) × (answer.new ≡ answer_after t answer.old) }
{
    if answer.len() < ANSWER {
        return t.number;
    }
    let n = t.spellings;
    answer[0] = t.number as usize;
    answer[1] = t.figure as usize;
    answer[2] = t.bits;
    answer[3] = t.position;
    answer[4] = n.plain as usize;
    answer[5] = n.type1 as usize;
    answer[6] = n.type2 as usize;
    answer[7] = n.type3 as usize;
    answer[8] = n.rvlc_escape as usize;
    t.number
}

// Number k of an answer; 0 where the answer is too short.
fn told_at(answer: &[usize], k: usize) -> usize
    requires { k < 9 }
    ensures { result ≡ told_at answer.now k }
{
    if answer.len() < ANSWER {
        return 0;
    }
    answer[k]
}

// The low 32 bits: an answer has no more in its number, its figure and its spellings.
fn low_bits(n: usize) -> u32
    ensures { result ≡ low n }
{
    (n % 4294967296) as u32
}

pub fn vaxembro_number(answer: &[usize]) -> u32
    ensures { result ≡ low (told_at answer.now 0) }
{
    low_bits(told_at(answer, 0))
}

pub fn vaxembro_figure(answer: &[usize]) -> u32
    ensures { result ≡ low (told_at answer.now 1) }
{
    low_bits(told_at(answer, 1))
}

pub fn vaxembro_bits(answer: &[usize]) -> usize
    ensures { result ≡ told_at answer.now 2 }
{
    told_at(answer, 2)
}

pub fn vaxembro_position(answer: &[usize]) -> usize
    ensures { result ≡ told_at answer.now 3 }
{
    told_at(answer, 3)
}

// The number of events of a spelling: 0 is plain, 1 to 3 an escape of that type, 4 a reversible escape; of any other 0.
pub fn vaxembro_spelling(answer: &[usize], which: u32) -> u32
    ensures { result ≡ spelling_in answer.now which }
{
    if 4 < which {
        return 0;
    }
    low_bits(told_at(answer, 4 + which as usize))
}
