// The station: what it holds between calls, and the slice that it lies in.
#![tactic(auto)]

mod record;

ghost use Rattle.std.specs.Prelude.{◌≡◌, eqb, length};
ghost use Rattle.station.specs.Record.{store_in, decode};

use crate::record::{bytes_of, colour_at, settings_at};
use standard::accept::{Standard, accept};

// Stores a standard in a slice of 20 bytes; a slice of another length stays, and the answer is false. No refusal: which
// one it is, its caller says. Where a load writes, and nowhere else.
#[tactic(auto, unfolding(crate::specs::Record::store_in))]
pub fn store(s: Standard, slice: &mut [u8]) -> bool
    ensures { (result ≡ eqb (length slice.old) 20) × (slice.new ≡ store_in s slice.old) }
{
    if slice.len() == 20 {
        slice.copy_from_slice(&bytes_of(s));
        true
    } else {
        false
    }
}

// The standard that a slice holds, if it holds one: 20 bytes, with the numbers of one that would be accepted.
#[tactic(auto, unfolding(crate::specs::Record::decode))]
pub fn read(s: &[u8]) -> Option<Standard>
    ensures { result ≡ decode s.now }
{
    let bytes: &[u8; 20] = s.as_array()?;
    accept(settings_at(bytes).ok()?, colour_at(bytes)).ok()
}
