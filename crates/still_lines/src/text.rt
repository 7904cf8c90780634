// A line that is being said: at most 256 bytes.
ghost use Rattle.std.specs.Prelude.{[], ◌++◌, ◌≡◌, ◌+◌, ◌≤◌, length};
ghost use Rattle.std.proofs.Math.Seq.{paste};
ghost use Rattle.still_lines.specs.Decimal.{decimal_of, integer_of};
ghost use Rattle.still_lines.specs.Text.{said};

#[derive(Clone, Copy)]
pub(crate) struct Text {
    pub bytes: [u8; 256],
    pub len: usize,
}

pub(crate) fn empty() -> Text
    ensures { (said result ≡ []) × (result.len ≡ 0) }
{
    Text {
        bytes: [0u8; 256],
        len: 0,
    }
}

// A word more.
pub(crate) fn word(t: Text, w: &[u8]) -> Text
    requires { t.len + length w.now ≤ 256 }
    ensures { (said result ≡ said t ++ w.now) × (result.len ≡ t.len + length w.now) }
{
    let len = t.len + w.len();
    let mut bytes = t.bytes;
    bytes[t.len..len].copy_from_slice(w);
    Text { bytes, len }
}

// A number more.
pub(crate) fn number(t: Text, n: u64) -> Text
    requires { t.len + 20 ≤ 256 }
    ensures { (said result ≡ said t ++ decimal_of n) × (result.len ≤ t.len + 20) }
{
    let mut digits = [0u8; 20];
    let k = io::decimal(n, &mut digits);
    word(t, &digits[..k])
}

// A word and a number more.
pub(crate) fn numbered(t: Text, w: &[u8], n: u64) -> Text
    requires { t.len + length w.now + 20 ≤ 256 }
    ensures { (said result ≡ said t ++ w.now ++ decimal_of n) × (result.len ≤ t.len + length w.now + 20) }
{
    let worded = word(t, w);
    number(worded, n)
}

// A word and an integer more.
pub(crate) fn signed(t: Text, w: &[u8], z: i32) -> Text
    requires { t.len + length w.now + 21 ≤ 256 }
    ensures { (said result ≡ said t ++ w.now ++ integer_of z) × (result.len ≤ t.len + length w.now + 21) }
{
    let worded = word(t, w);
    let size = u64::from(z.unsigned_abs());
    if z < 0 {
        numbered(worded, b"-", size)
    } else {
        number(worded, size)
    }
}

// What is said, put into `out` from a place on; the place after it.
pub(crate) fn put(t: Text, at: usize, out: &mut [u8]) -> usize
    requires { (t.len ≤ 256) × (at + t.len ≤ length out.old) }
    ensures value { (result ≡ at + length (said t)) × (result ≡ at + t.len) }
    ensures out { out.new ≡ paste out.old at (said t) (length (said t)) }
{
    let end = at + t.len;
    out[at..end].copy_from_slice(&t.bytes[..t.len]);
    end
}
