// The default matrix of intra blocks.
ghost use Rattle.std.specs.Prelude.{◌≡◌};
ghost use Rattle.assembly.specs.Matrix.{default_intra};

const DEFAULT_INTRA_QUANT_MATRIX: [[u8; 8]; 8] = [
    [8, 17, 18, 19, 21, 23, 25, 27],
    [17, 18, 19, 21, 23, 25, 27, 28],
    [20, 21, 22, 23, 24, 26, 28, 30],
    [21, 22, 23, 24, 26, 28, 30, 32],
    [22, 23, 24, 26, 28, 30, 32, 35],
    [23, 24, 26, 28, 30, 32, 35, 38],
    [25, 26, 28, 30, 32, 35, 38, 41],
    [27, 28, 30, 32, 35, 38, 41, 45],
];

pub fn default_intra_quant_matrix() -> [[u8; 8]; 8]
    ensures { result ≡ default_intra }
{
    DEFAULT_INTRA_QUANT_MATRIX
}
