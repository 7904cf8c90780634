// The tables of DC sizes (the two of texture.rs; Tables B.13 and B.14), and the component of a block,
// which chooses between them.
ghost use Rattle.std.specs.Prelude.{◌≡◌};
ghost use Rattle.codes.specs.Component.{component_due, component_of, component_outcome};
ghost use Rattle.codes.specs.DcSize.{dc_codes, dc_lens};

// Luminance or chrominance (6.2.7).
#[derive(Clone, Copy)]
pub enum DcComponent {
    Luminance,
    Chrominance,
}

impl DcComponent {
    // Blocks 0 to 3 are luminance, 4 and 5 chrominance (Figure 6-8).
    pub fn from_block_index(i: usize) -> Option<DcComponent>
        ensures value { result ≡ component_of i }
        ensures outcome { component_outcome result ≡ component_due i }
    {
        if i < 4 {
            return Some(DcComponent::Luminance);
        }
        if i < 6 {
            return Some(DcComponent::Chrominance);
        }
        None
    }
}

// Codes of Table B.13: row i says size i.
const LUMINANCE_CODE: [u32; 13] = [
    0b011,
    0b11,
    0b10,
    0b010,
    0b001,
    0b0001,
    0b00001,
    0b000001,
    0b0000001,
    0b00000001,
    0b000000001,
    0b0000000001,
    0b00000000001,
];

// Their lengths.
const LUMINANCE_LEN: [u32; 13] = [3, 2, 2, 3, 3, 4, 5, 6, 7, 8, 9, 10, 11];

// Codes of Table B.14: row i says size i.
const CHROMINANCE_CODE: [u32; 13] = [
    0b11,
    0b10,
    0b01,
    0b001,
    0b0001,
    0b00001,
    0b000001,
    0b0000001,
    0b00000001,
    0b000000001,
    0b0000000001,
    0b00000000001,
    0b000000000001,
];

// Their lengths.
const CHROMINANCE_LEN: [u32; 13] = [2, 2, 2, 3, 4, 5, 6, 7, 8, 9, 10, 11, 12];

// The codes of a component's sizes.
pub fn dc_size_codes(component: DcComponent) -> [u32; 13]
    ensures { result ≡ dc_codes component }
{
    match component {
        DcComponent::Luminance => LUMINANCE_CODE,
        DcComponent::Chrominance => CHROMINANCE_CODE,
    }
}

// The lengths of these codes.
pub fn dc_size_lens(component: DcComponent) -> [u32; 13]
    ensures { result ≡ dc_lens component }
{
    match component {
        DcComponent::Luminance => LUMINANCE_LEN,
        DcComponent::Chrominance => CHROMINANCE_LEN,
    }
}
