// A short way to bits: the next 32 of them at once, whether or not so many are left.
ghost use Rattle.std.specs.Prelude.{◌≡◌, ◌<◌, get_or};
ghost use Rattle.bits.specs.Ahead.{ahead_of};

// A byte; 0 past the end.
fn byte_at(data: &[u8], at: usize) -> u64
    ensures { (result ≡ get_or «data».now at 0) × (result < 256) }
{
    u64::from(data.get(at).copied().unwrap_or(0))
}

// The 32 bits from a position on as a number, first bit highest; zeros past the end of the data. Eight bytes are read
// where so many are left, which compiles to one load.
pub fn ahead(data: &[u8], at: usize) -> u32
    ensures { result ≡ ahead_of «data».now at }
{
    let first = at / 8;
    let skip = (at % 8) as u32;
    if first + 8 <= data.len() {
        let v = crate::cursor::gather(data, first, 8);
        return ((v >> (32 - skip)) % 4294967296) as u32;
    }
    let mut v: u64 = 0;
    for k in 0..5 {
        v = v * 256 + byte_at(data, first + k);
    }
    ((v >> (8 - skip)) % 4294967296) as u32
}
