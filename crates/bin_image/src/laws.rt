//! Laws of the map, each proved as the contract of an empty function.

ghost use Rattle.bin_image.specs.Reading.{FirstWrongLaw, MapLaw, OneRecord, SpellingLaw};

/// What reading gives is what the bytes say, and where it gives no map they say none.
pub fn map_law()
    ensures { MapLaw }
{}

/// Bytes have at most one record.
pub fn one_record()
    ensures { OneRecord }
{}

/// The text of a valid map reads as that map.
pub fn spelling_law()
    ensures { SpellingLaw }
{}

/// The offset that reading tells is that of the first wrong line, and the first wrong line is told.
pub fn first_wrong_law()
    ensures { FirstWrongLaw }
{}
