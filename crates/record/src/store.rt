// A record into the store.
ghost use Rattle.std.specs.Prelude.{◌≡◌, length};
ghost use Rattle.record.specs.Record.{stored_at};
ghost use Rattle.record.specs.Refusals.{first_bad, recorded_outcome, store_due, store_tests};

use crate::refusal::RecordError;

// Where it lies in the store; or 14, and the store as it was.
pub fn put_record(store: &mut [i32], at: u32, r: [i32; 91]) -> Result<(), RecordError>
    ensures value { (result ≡ first_bad (store_tests (length store.old) at)) × (store.new ≡ stored_at store.old at r) }
    ensures outcome { recorded_outcome result ≡ store_due (length store.old) at }
{
    let start = at as usize;
    if store.len() < start + 91 {
        return Err(RecordError::TooShort);
    }
    store[start..start + 91].copy_from_slice(&r);
    Ok(())
}
