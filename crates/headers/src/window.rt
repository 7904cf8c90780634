// A header without stuffing, of at most 15 bits, out of one window of 32.
ghost use Rattle.std.specs.Prelude.{◌≡◌, ◌*◌, ◌+◌, ◌%◌, ◌≤◌, length};
ghost use Rattle.headers.specs.Inside.{PartsSettled, length_in, parts_in};

use crate::parts::HeaderParts;

// The length of a header. mcbpc and cbpy are what six bits tell of them: a length and 16 times a row.
fn length_in(mcbpc: u32, cbpy: u32) -> u32
    ensures { result ≡ length_in mcbpc cbpy }
{
    let len = mcbpc % 16 + 1 + cbpy % 16;
    if mcbpc < 64 { len } else { len + 2 }
}

// The parts of such a header that begins a window.
fn parts_in(window: u32, mcbpc: u32, cbpy: u32) -> HeaderParts
    requires { mcbpc % 16 + cbpy % 16 ≤ 12 }
    ensures { result ≡ parts_in window mcbpc cbpy }
{
    let ac_pred_flag = (window >> (31 - mcbpc % 16)) % 2;
    let dquant_delta = if mcbpc < 64 {
        0
    } else {
        crate::parts::dquant_value((window >> (29 - mcbpc % 16 - cbpy % 16)) % 4)
    };
    HeaderParts {
        mcbpc: mcbpc / 16,
        ac_pred_flag,
        cbpy: cbpy / 16,
        dquant_delta,
    }
}

// The parts of a header, and the position after it. A next position 0 says nothing.
#[derive(Clone, Copy)]
pub struct PartsAt {
    pub next: usize,
    pub parts: HeaderParts,
}

// Says nothing.
fn no_parts() -> PartsAt
    ensures { result.next ≡ 0 }
{
    PartsAt {
        next: 0,
        parts: HeaderParts {
            mcbpc: 0,
            ac_pred_flag: 0,
            cbpy: 0,
            dquant_delta: 0,
        },
    }
}

// The header at a position, where one window tells it.
pub(crate) fn parts_at(data: &[u8], at: usize) -> PartsAt
    requires { (at ≤ 8 * length «data».now) × (length «data».now ≤ 1048576) }
    ensures { PartsSettled «data».now at result }
{
    let w = bits::ahead(data, at);
    let mcbpc = codes::mcbpc_short(w);
    if mcbpc == 0 {
        return no_parts();
    }
    let cbpy = codes::cbpy_short(w << (mcbpc % 16 + 1));
    if cbpy == 0 {
        return no_parts();
    }
    let next = at + length_in(mcbpc, cbpy) as usize;
    if 8 * data.len() < next {
        return no_parts();
    }
    let parts = parts_in(w, mcbpc, cbpy);
    PartsAt { next, parts }
}
