// The inverse scan (scan.rs; 7.4.2).
#![tactic(auto)]

ghost use Rattle.std.specs.Prelude.{◌≡◌};
ghost use Rattle.scan.specs.Scan.{grid_of, scan_of, scanned};

// The three scans of Figure 7-4.
#[derive(Clone, Copy)]
pub enum ScanType {
    AlternateHorizontal,
    AlternateVertical,
    Zigzag,
}

// Where the prediction of a block is taken from: A, on the left, or C, above.
#[derive(Clone, Copy)]
pub enum DcPredictionDirection {
    FromLeft,
    FromAbove,
}

const ALT_HORIZONTAL: [[u8; 8]; 8] = [
    [0, 1, 2, 3, 10, 11, 12, 13],
    [4, 5, 8, 9, 17, 16, 15, 14],
    [6, 7, 19, 18, 26, 27, 28, 29],
    [20, 21, 24, 25, 30, 31, 32, 33],
    [22, 23, 34, 35, 42, 43, 44, 45],
    [36, 37, 40, 41, 46, 47, 48, 49],
    [38, 39, 50, 51, 56, 57, 58, 59],
    [52, 53, 54, 55, 60, 61, 62, 63],
];

const ALT_VERTICAL: [[u8; 8]; 8] = [
    [0, 4, 6, 20, 22, 36, 38, 52],
    [1, 5, 7, 21, 23, 37, 39, 53],
    [2, 8, 19, 24, 34, 40, 50, 54],
    [3, 9, 18, 25, 35, 41, 51, 55],
    [10, 17, 26, 30, 42, 46, 56, 60],
    [11, 16, 27, 31, 43, 47, 57, 61],
    [12, 15, 28, 32, 44, 48, 58, 62],
    [13, 14, 29, 33, 45, 49, 59, 63],
];

const ZIGZAG: [[u8; 8]; 8] = [
    [0, 1, 5, 6, 14, 15, 27, 28],
    [2, 4, 7, 13, 16, 26, 29, 42],
    [3, 8, 12, 17, 25, 30, 41, 43],
    [9, 11, 18, 24, 31, 40, 44, 53],
    [10, 19, 23, 32, 39, 45, 52, 54],
    [20, 22, 33, 38, 46, 51, 55, 60],
    [21, 34, 37, 47, 50, 56, 59, 61],
    [35, 36, 48, 49, 57, 58, 62, 63],
];

fn scan_grid(scan_type: ScanType) -> [[u8; 8]; 8]
    ensures { result ≡ grid_of scan_type }
{
    match scan_type {
        ScanType::AlternateHorizontal => ALT_HORIZONTAL,
        ScanType::AlternateVertical => ALT_VERTICAL,
        ScanType::Zigzag => ZIGZAG,
    }
}

// The scan of a block: zigzag, but for an intra block with AC prediction.
pub fn select_scan_type(
    is_intra: bool,
    ac_pred_flag: bool,
    dc_direction: DcPredictionDirection,
) -> ScanType
    ensures { result ≡ scan_of is_intra ac_pred_flag dc_direction }
{
    if !is_intra {
        return ScanType::Zigzag;
    }
    if !ac_pred_flag {
        return ScanType::Zigzag;
    }
    match dc_direction {
        DcPredictionDirection::FromLeft => ScanType::AlternateVertical,
        DcPredictionDirection::FromAbove => ScanType::AlternateHorizontal,
    }
}

// The 64 places as a block, in the order of a scan.
pub fn inverse_scan(qfs: [i32; 64], scan_type: ScanType) -> [[i32; 8]; 8]
    ensures { result ≡ scanned qfs scan_type }
{
    let grid = scan_grid(scan_type);
    let mut pqf = [[0i32; 8]; 8];
    for v in 0..8 {
        for u in 0..8 {
            let n = grid[v][u] as usize;
            pqf[v][u] = qfs[n];
        }
    }
    pqf
}
