// The header record of a macroblock (macroblock.rs).
ghost use Rattle.std.specs.Prelude.{◌≡◌};
ghost use Rattle.assembly.specs.Outcomes.{checked_outcome};
ghost use Rattle.headers.specs.Fields.{header_check, is_intra};
ghost use Rattle.headers.specs.Outcomes.{header_due};

use assembly::BlockAssemblyError;

// Table B.1; `Missing` is the Rust's `None`.
#[derive(Clone, Copy)]
pub enum DerivedMbType {
    Missing,
    Inter,
    InterQ,
    Inter4V,
    Intra,
    IntraQ,
}

impl DerivedMbType {
    pub fn is_intra(self) -> bool
        ensures { result ≡ is_intra self }
    {
        matches!(self, DerivedMbType::Intra | DerivedMbType::IntraQ)
    }
}

// What a macroblock's texture takes of its header. `ac_pred_flag` is the context's; the header's is not looked at.
#[derive(Clone, Copy)]
pub struct MacroblockHeader {
    pub not_coded: bool,
    pub mb_type: DerivedMbType,
    pub cbpc: u8,
    pub ac_pred_flag: bool,
    pub cbpy: u8,
}

// 9, then 10.
pub fn check_header(header: MacroblockHeader) -> Result<(), BlockAssemblyError>
    ensures value { result ≡ header_check header }
    ensures outcome { checked_outcome result ≡ header_due header }
{
    if header.not_coded {
        return Err(BlockAssemblyError::NotCoded);
    }
    if !header.mb_type.is_intra() {
        return Err(BlockAssemblyError::NotIntra);
    }
    Ok(())
}
