// Where the words of an object stand, counted from its place, and how a word refers to an object.

ghost use Rattle.std.specs.Prelude.{◌≡◌, ◌^◌, ◌≤◌, MatchOption};
ghost use Rattle.object_headers.specs.Offsets.{reference_to};

/// The serial number's word comes after the header.
pub const SERIAL: u32 = 1;

/// The first field's word comes after the serial number. Each object has these two words.
pub const FIRST_FIELD: u32 = 2;

/// The reference to the object at a place.
pub fn reference_to(place: u32) -> u64
    ensures { result ≡ reference_to place }
{
    u64::from(place) + 1
}

/// The place of the object to which a word refers. A null word refers to none.
pub fn place_in(reference: u64) -> Option<u32>
    requires { reference ≤ 2 ^ 32 }
    ensures { MatchOption result (reference ≡ 0) (λ place. reference ≡ reference_to place) }
{
    if reference == 0 {
        return None;
    }
    Some((reference - 1) as u32)
}
