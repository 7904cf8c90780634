// The fast scan: the places up to an end by a scan, with a level at the DC's place, into a block that is lent. All 64 are taken row
// by row, so that no value is stored by itself; fewer go the plain way.
//
// No public function has a `requires`: places from the end on, and past those that there are, are 0.
#![tactic(auto)]

ghost use Rattle.std.specs.Prelude.{true, ◌≡◌, ℕ, ◌≤◌, pos, get_or, length, set};
ghost use Rattle.numbers.specs.Grid.{build};
ghost use Rattle.scan.specs.Scan.{scanned};
ghost use Rattle.scan.specs.declared.ScanType.TheVariants.{AlternateHorizontal, AlternateVertical, Zigzag};
ghost use Rattle.scan_rows.specs.Rows.{inside, zeros};
ghost use Rattle.scan_rows.specs.UpTo.{up_to};

use scan::ScanType;

// The places below `end`, the others 0.
pub fn up_to(qfs: &[i32], end: usize) -> [i32; 64]
    ensures { result ≡ up_to end qfs.now }
{
    let last = end.min(qfs.len()).min(64);
    let mut places = [0i32; 64];
    places[..last].copy_from_slice(&qfs[..last]);
    places
}

// They with a level at the DC's, by a scan.
fn scanned_up_to(qfs: &[i32], end: usize, level: i32, scan_type: ScanType) -> [[i32; 8]; 8]
    ensures { result ≡ scanned (set (up_to end qfs.now) 0 level) scan_type }
{
    let mut places = up_to(qfs, end);
    places[0] = level;
    scan::inverse_scan(places, scan_type)
}

// The eight places that a row of a scan names.
fn row_of(qfs: &[i32], at: [u8; 8]) -> [i32; 8]
    requires { (64 ≤ length qfs.now) × (inside at ≡ true) }
    ensures { result ≡ build 8 (λ (u : ℕ). get_or qfs.now (get_or at u 0) (pos 0)) }
{
    let mut row = [0i32; 8];
    for u in 0..8 {
        let k = at[u] as usize;
        row[u] = qfs[k];
    }
    row
}

// All 64 places by the alternate horizontal scan, with a level at the DC's, into a block of zeros.
fn by_horizontal(qfs: &[i32], level: i32, qf: &mut [[i32; 8]; 8])
    requires { (64 ≤ length qfs.now) × (qf.old ≡ zeros) }
    ensures { qf.new ≡ scanned (set qfs.now 0 level) AlternateHorizontal }
{
    let mut first = row_of(qfs, [0, 1, 2, 3, 10, 11, 12, 13]);
    first[0] = level;
    qf[0] = first;
    qf[1] = row_of(qfs, [4, 5, 8, 9, 17, 16, 15, 14]);
    qf[2] = row_of(qfs, [6, 7, 19, 18, 26, 27, 28, 29]);
    qf[3] = row_of(qfs, [20, 21, 24, 25, 30, 31, 32, 33]);
    qf[4] = row_of(qfs, [22, 23, 34, 35, 42, 43, 44, 45]);
    qf[5] = row_of(qfs, [36, 37, 40, 41, 46, 47, 48, 49]);
    qf[6] = row_of(qfs, [38, 39, 50, 51, 56, 57, 58, 59]);
    qf[7] = row_of(qfs, [52, 53, 54, 55, 60, 61, 62, 63]);
}

// All 64 places by the alternate vertical scan, with a level at the DC's, into a block of zeros.
fn by_vertical(qfs: &[i32], level: i32, qf: &mut [[i32; 8]; 8])
    requires { (64 ≤ length qfs.now) × (qf.old ≡ zeros) }
    ensures { qf.new ≡ scanned (set qfs.now 0 level) AlternateVertical }
{
    let mut first = row_of(qfs, [0, 4, 6, 20, 22, 36, 38, 52]);
    first[0] = level;
    qf[0] = first;
    qf[1] = row_of(qfs, [1, 5, 7, 21, 23, 37, 39, 53]);
    qf[2] = row_of(qfs, [2, 8, 19, 24, 34, 40, 50, 54]);
    qf[3] = row_of(qfs, [3, 9, 18, 25, 35, 41, 51, 55]);
    qf[4] = row_of(qfs, [10, 17, 26, 30, 42, 46, 56, 60]);
    qf[5] = row_of(qfs, [11, 16, 27, 31, 43, 47, 57, 61]);
    qf[6] = row_of(qfs, [12, 15, 28, 32, 44, 48, 58, 62]);
    qf[7] = row_of(qfs, [13, 14, 29, 33, 45, 49, 59, 63]);
}

// All 64 places by the zigzag scan, with a level at the DC's, into a block of zeros.
fn by_zigzag(qfs: &[i32], level: i32, qf: &mut [[i32; 8]; 8])
    requires { (64 ≤ length qfs.now) × (qf.old ≡ zeros) }
    ensures { qf.new ≡ scanned (set qfs.now 0 level) Zigzag }
{
    let mut first = row_of(qfs, [0, 1, 5, 6, 14, 15, 27, 28]);
    first[0] = level;
    qf[0] = first;
    qf[1] = row_of(qfs, [2, 4, 7, 13, 16, 26, 29, 42]);
    qf[2] = row_of(qfs, [3, 8, 12, 17, 25, 30, 41, 43]);
    qf[3] = row_of(qfs, [9, 11, 18, 24, 31, 40, 44, 53]);
    qf[4] = row_of(qfs, [10, 19, 23, 32, 39, 45, 52, 54]);
    qf[5] = row_of(qfs, [20, 22, 33, 38, 46, 51, 55, 60]);
    qf[6] = row_of(qfs, [21, 34, 37, 47, 50, 56, 59, 61]);
    qf[7] = row_of(qfs, [35, 36, 48, 49, 57, 58, 62, 63]);
}

// The places below `end` by a scan, with a level at the DC's. Up to 1 that level stands alone.
pub fn put_scanned(qfs: &[i32], end: usize, level: i32, scan_type: ScanType, qf: &mut [[i32; 8]; 8])
    ensures { qf.new ≡ scanned (set (up_to end qfs.now) 0 level) scan_type }
{
    if end <= 1 {
        *qf = [[0i32; 8]; 8];
        qf[0][0] = level;
        return;
    }
    if end.min(qfs.len()) < 64 {
        *qf = scanned_up_to(qfs, end, level, scan_type);
        return;
    }
    *qf = [[0i32; 8]; 8];
    match scan_type {
        ScanType::AlternateHorizontal => by_horizontal(qfs, level, qf),
        ScanType::AlternateVertical => by_vertical(qfs, level, qf),
        ScanType::Zigzag => by_zigzag(qfs, level, qf),
    }
}
