// Hexadecimal data.
ghost use Rattle.std.specs.Prelude.{true, ◌≡◌, ◌+◌, ◌*◌, ◌≤◌, ◌<◌, length};
ghost use Rattle.std.proofs.Math.Seq.{paste};
ghost use Rattle.forms.specs.Forms.{longest};
ghost use Rattle.forms.specs.Reading.{part, room_for_data, there};
ghost use Rattle.forms.specs.Words.{bytes_of, hex_in, hex_of, is_hex};
ghost use Rattle.numbers.specs.Every.{every};

// 0 to 15.
fn hex_value(b: u8) -> u8
    requires { is_hex b ≡ true }
    ensures { (result ≡ hex_of b) × (result < 16) }
{
    if b <= 57 {
        return b - 48;
    }
    if b <= 70 {
        return b - 55;
    }
    b - 87
}

// Whether all bytes from `from` up to `to` are digits.
fn all_hex(line: &[u8], from: usize, to: usize) -> bool
    requires { (from ≤ to) × (to ≤ length line.now) }
    ensures { result ≡ every is_hex (part line.now from to) }
{
    line[from..to].iter().all(|b| b.is_ascii_hexdigit())
}

// The bytes that `n` pairs of digits from `from` on write, into the first `n` of `data`.
fn decode(line: &[u8], from: usize, n: usize, data: &mut [u8])
    requires { (from + 2 * n ≤ length line.now) × ((n ≤ length «data».old) × ((length line.now ≤ longest) × (every is_hex (part line.now from (from + 2 * n)) ≡ true))) }
    ensures { «data».new ≡ paste «data».old 0 (bytes_of (part line.now from (from + 2 * n))) n }
{
    // An index: byte k comes of the digits 2 k and 2 k + 1.
    for k in 0..n {
        let high = hex_value(line[from + 2 * k]);
        let low = hex_value(line[from + 2 * k + 1]);
        data[k] = 16 * high + low;
    }
}

// Whether the bytes from `from` up to `to` are data.
pub(crate) fn is_data(line: &[u8], from: usize, to: usize) -> bool
    requires { (from ≤ to) × (to ≤ length line.now) }
    ensures { result ≡ there (hex_in (part line.now from to)) }
{
    let n = to - from;
    2 <= n && n % 2 == 0 && all_hex(line, from, to)
}

// The data of a word that is data; its number of bytes.
pub(crate) fn data_of(line: &[u8], from: usize, to: usize, data: &mut [u8]) -> usize
    requires { (from ≤ to) × ((to ≤ length line.now) × ((length line.now ≤ longest) × ((room_for_data ≤ length «data».old) × (there (hex_in (part line.now from to)) ≡ true)))) }
    ensures { (result ≡ length (bytes_of (part line.now from to))) × («data».new ≡ paste «data».old 0 (bytes_of (part line.now from to)) (length (bytes_of (part line.now from to)))) }
{
    let n = (to - from) / 2;
    decode(line, from, n, data);
    n
}
