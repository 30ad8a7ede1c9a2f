// What may stand at the places of the forms.

use super::forms::Spot;

pub(crate) const SLOT: Spot = Spot::Number(0, 255);

pub(crate) const SLOT_OR_NULL: Spot = Spot::NumberOrNull(0, 255);

pub(crate) const WEAK_SLOT: Spot = Spot::Number(0, 63);

pub(crate) const REGION_SLOT: Spot = Spot::Number(0, 31);

pub(crate) const FIELD: Spot = Spot::Number(0, 67_108_863);

pub(crate) const EXTRA_WORDS: Spot = Spot::Number(0, 33_554_432);

pub(crate) const STACK_PLACE: Spot = Spot::Number(0, 1023);

pub(crate) const OBJECTS: Spot = Spot::Number(1, 4_294_967_295);
