// The densities of a record's fields, written one after the other.
ghost use Rattle.number.specs.Place.{Room, Wrote};
ghost use Rattle.record.specs.Steps.{RoomForAll, AllPlaced};

use crate::field::Fields;
use crate::questions::Tag;

// The bytes of `payload`, a density each, at the place `at`; the next place is answered.
pub fn put_payload(payload: &[u8], densities: &mut [u32], at: usize) -> usize
    requires { Room densities.old at payload.now }
    ensures { Wrote densities.old densities.new at payload.now result }
{
    // By place: of what is written through a `zip` with `iter_mut` no proof knows the values.
    for (i, byte) in payload.iter().enumerate() {
        densities[at + i] = u32::from(*byte);
    }
    at + payload.len()
}

// The densities of all fields at the start of `densities`.
pub fn place_densities(bytes: &[u8], densities: &mut [u32])
    requires { RoomForAll bytes.now densities.old }
    ensures { AllPlaced bytes.now densities.old densities.new }
{
    let mut count = 0;
    for field in Fields(bytes) {
        // A cut field is the last.
        let Ok(field) = field else {
            return;
        };
        if field.tag == Tag::Densities as u8 {
            count = put_payload(field.payload, densities, count);
        }
    }
}
