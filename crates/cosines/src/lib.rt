// The cosines and the factor C of Annex A.1.
//
// No function has a `requires`: each answers every input.
#![tactic(auto)]

ghost use Rattle.std.specs.Prelude.{◌≡◌};
ghost use Rattle.numbers.specs.Grid.{block};
ghost use Rattle.cosines.specs.Cosines.{c_f, cos_f, half_table};

// cos(k pi / 16) for k = 0..=7, each the f64 nearest to it.
const COS_0: f64 = 1.0;

const COS_1: f64 = 0.980_785_280_403_230_4;

const COS_2: f64 = 0.923_879_532_511_286_7;

const COS_3: f64 = 0.831_469_612_302_545_2;

const COS_4: f64 = 0.707_106_781_186_547_6;

const COS_5: f64 = 0.555_570_233_019_602_2;

const COS_6: f64 = 0.382_683_432_365_089_8;

const COS_7: f64 = 0.195_090_322_016_128_28;

// cos((2x + 1) u pi / 16) at row u and column x, by the symmetries of the cosine.
const COSINES: [[f64; 8]; 8] = [
    [COS_0, COS_0, COS_0, COS_0, COS_0, COS_0, COS_0, COS_0],
    [COS_1, COS_3, COS_5, COS_7, -COS_7, -COS_5, -COS_3, -COS_1],
    [COS_2, COS_6, -COS_6, -COS_2, -COS_2, -COS_6, COS_6, COS_2],
    [COS_3, -COS_7, -COS_1, -COS_5, COS_5, COS_1, COS_7, -COS_3],
    [COS_4, -COS_4, -COS_4, COS_4, COS_4, -COS_4, -COS_4, COS_4],
    [COS_5, -COS_1, COS_7, COS_3, -COS_3, -COS_7, COS_1, -COS_5],
    [COS_6, -COS_2, COS_2, -COS_6, -COS_6, COS_2, -COS_2, COS_6],
    [COS_7, -COS_5, COS_3, -COS_1, COS_1, -COS_3, COS_5, -COS_7],
];

// The same as a value.
pub fn cos_table() -> [[f64; 8]; 8]
    ensures { result ≡ block cos_f }
{
    COSINES
}

// Its first four columns: at 7 - x stand the same cosines but for the sign of the odd rows.
const HALF_COSINES: [[f64; 4]; 8] = [
    [COS_0, COS_0, COS_0, COS_0],
    [COS_1, COS_3, COS_5, COS_7],
    [COS_2, COS_6, -COS_6, -COS_2],
    [COS_3, -COS_7, -COS_1, -COS_5],
    [COS_4, -COS_4, -COS_4, COS_4],
    [COS_5, -COS_1, COS_7, COS_3],
    [COS_6, -COS_2, COS_2, -COS_6],
    [COS_7, -COS_5, COS_3, -COS_1],
];

// The same as a value.
pub fn half_table() -> [[f64; 4]; 8]
    ensures { result ≡ half_table }
{
    HALF_COSINES
}

// C(k): 1/sqrt 2 at 0, and 1 elsewhere.
pub fn c(k: usize) -> f64
    ensures { result ≡ c_f k }
{
    if k == 0 { 0.707_106_781_186_547_6 } else { 1.0 }
}
