// The bits of one block into its 64 places, and of the six blocks of a macroblock.
ghost use Rattle.std.specs.Prelude.{◌≡◌, false, true, ◌≤◌, length};
ghost use Rattle.bits.specs.Bits.{bits_from};
ghost use Rattle.events.specs.Spellings.{together, total_of};
ghost use Rattle.fields.specs.Inside.{Readable};
ghost use Rattle.block_reader.specs.Reading.{list_answer, places_answer, refused_by, with_difference};
ghost use Rattle.codes.specs.Component.{component_at};
ghost use Rattle.texture.specs.Outcomes.{list_outcome};
ghost use Rattle.block_reader.specs.Outcomes.{blocks_due, places_due};
ghost use Rattle.block_reader.specs.Rows.{RowsSay, blocks_answer, read_rows, read_spellings, rows_after};

use bits::Cursor;
use codes::{DcComponent, TcoefTable};
use texture::{Spellings, TextureParseError};

// The cursor after a block and the number of its events of each spelling, or a refusal, and its 64 places, zeros where it refused.
#[derive(Clone, Copy)]
pub struct PlacesRead {
    pub answer: Result<(Cursor, Spellings), TextureParseError>,
    pub qfs: [i32; 64],
}

fn refusal(e: TextureParseError) -> PlacesRead
    ensures { result ≡ refused_by e }
{
    PlacesRead {
        answer: Err(e),
        qfs: [0i32; 64],
    }
}

// The event list, if the block is coded.
fn read_list(data: &[u8], c: Cursor, coded: bool, dc_coded: bool, reversible: bool) -> PlacesRead
    ensures { result ≡ list_answer «data».now c.bit_pos coded dc_coded reversible }
{
    if !coded {
        return match c.remaining_bits(data) {
            Err(_) => refusal(TextureParseError::OutOfRange),
            Ok(_) => PlacesRead {
                answer: Ok((c, Spellings::none())),
                qfs: [0i32; 64],
            },
        };
    }
    let mut qfs = [0i32; 64];
    let answer = if reversible {
        texture::decode_ac_events_rvlc(data, c, TcoefTable::Intra, dc_coded, &mut qfs)
    } else {
        texture::decode_ac_events(data, c, TcoefTable::Intra, dc_coded, &mut qfs)
    };
    PlacesRead { answer, qfs }
}

// The difference of a DC part, at place 0 of what was accepted.
fn with_difference(one: PlacesRead, difference: i32) -> PlacesRead
    ensures { result ≡ with_difference one.answer one.qfs difference }
{
    match one.answer {
        Err(e) => refusal(e),
        Ok(read) => {
            let mut qfs = one.qfs;
            qfs[0] = difference;
            PlacesRead {
                answer: Ok(read),
                qfs,
            }
        }
    }
}

// One block: its DC part, where DC codes are in use, and its list; 11 outside the data.
pub fn read_block(
    data: &[u8],
    c: Cursor,
    component: DcComponent,
    coded: bool,
    dc_coded: bool,
    reversible: bool,
) -> PlacesRead
    ensures value { result ≡ places_answer «data».now c.bit_pos component coded dc_coded reversible }
    ensures outcome { list_outcome result.answer ≡ places_due «data».now c.bit_pos component coded dc_coded reversible }
{
    if !dc_coded {
        return read_list(data, c, coded, false, reversible);
    }
    match texture::decode_intra_dc(data, c, component) {
        Err(e) => refusal(e),
        Ok((v, next)) => {
            let one = read_list(data, next, coded, true, reversible);
            with_difference(one, v.differential)
        }
    }
}

// The component of block i of six.
fn component(i: usize) -> DcComponent
    ensures { result ≡ component_at i }
{
    if i < 4 {
        DcComponent::Luminance
    } else {
        DcComponent::Chrominance
    }
}

// The events of two parts together.
fn sum(n: Spellings, m: Spellings) -> Spellings
    requires { (total_of n ≤ 384) × (total_of m ≤ 64) }
    ensures { result ≡ together n m }
{
    Spellings {
        plain: n.plain + m.plain,
        type1: n.type1 + m.type1,
        type2: n.type2 + m.type2,
        type3: n.type3 + m.type3,
        rvlc_escape: n.rvlc_escape + m.rvlc_escape,
    }
}

// Six blocks, row after row.
fn read_rows(
    data: &[u8],
    start: Cursor,
    pattern: [bool; 6],
    dc_coded: bool,
    reversible: bool,
    rows: &mut [[i32; 64]; 6],
) -> Result<(Cursor, Spellings), TextureParseError>
    requires { Readable «data».now start × (length rows.old ≡ 6) }
    ensures { RowsSay «data».now result rows.new (read_rows dc_coded reversible pattern (bits_from «data».now start.bit_pos)) (read_spellings dc_coded reversible pattern (bits_from «data».now start.bit_pos)) }
{
    let mut c = start;
    let mut spellings = Spellings::none();
    // an index: the component goes by it too
    for i in 0..6 {
        let PlacesRead { answer, qfs } = read_block(
            data,
            c,
            component(i),
            pattern[i],
            dc_coded,
            reversible,
        );
        let (next, more) = answer?;
        rows[i] = qfs;
        c = next;
        spellings = sum(spellings, more);
    }
    Ok((c, spellings))
}

// The six blocks of a macroblock for its pattern, each into its row of 64 places.
pub fn read_blocks(
    data: &[u8],
    c: Cursor,
    pattern: [bool; 6],
    use_intra_dc_vlc: bool,
    reversible_vlc: bool,
    rows: &mut [[i32; 64]; 6],
) -> Result<(Cursor, Spellings), TextureParseError>
    ensures value { result ≡ blocks_answer «data».now c.bit_pos pattern use_intra_dc_vlc reversible_vlc }
    ensures rows { rows.new ≡ rows_after «data».now c.bit_pos pattern use_intra_dc_vlc reversible_vlc rows.old }
    ensures outcome { list_outcome result ≡ blocks_due «data».now c.bit_pos pattern use_intra_dc_vlc reversible_vlc }
{
    let Ok(_) = c.remaining_bits(data) else {
        return Err(TextureParseError::OutOfRange);
    };
    let mut filled = [[0i32; 64]; 6];
    let (next, spellings) = read_rows(
        data,
        c,
        pattern,
        use_intra_dc_vlc,
        reversible_vlc,
        &mut filled,
    )?;
    *rows = filled;
    Ok((next, spellings))
}
