// What the nine numbers of an answer say.
ghost use Rattle.std.specs.Prelude.{◌≡◌};
ghost use Rattle.vaxembro.specs.Answer.{low, spelling_in, told_at};

#[unsafe(no_mangle)]
pub extern "C" fn vaxembro_number(answer: &[usize]) -> u32
    ensures { result ≡ low (told_at answer.now 0) }
{
    vaxembro::vaxembro_number(answer)
}

#[unsafe(no_mangle)]
pub extern "C" fn vaxembro_figure(answer: &[usize]) -> u32
    ensures { result ≡ low (told_at answer.now 1) }
{
    vaxembro::vaxembro_figure(answer)
}

#[unsafe(no_mangle)]
pub extern "C" fn vaxembro_bits(answer: &[usize]) -> usize
    ensures { result ≡ told_at answer.now 2 }
{
    vaxembro::vaxembro_bits(answer)
}

#[unsafe(no_mangle)]
pub extern "C" fn vaxembro_position(answer: &[usize]) -> usize
    ensures { result ≡ told_at answer.now 3 }
{
    vaxembro::vaxembro_position(answer)
}

// The number of events of a spelling: 0 is plain, 1 to 3 an escape of that type, 4 a reversible escape; of any other 0.
#[unsafe(no_mangle)]
pub extern "C" fn vaxembro_spelling(answer: &[usize], which: u32) -> u32
    ensures { result ≡ spelling_in answer.now which }
{
    vaxembro::vaxembro_spelling(answer, which)
}
