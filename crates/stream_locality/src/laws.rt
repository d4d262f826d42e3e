//! Laws of streams by key. Each is the contract of a function with nothing in it.

ghost use Rattle.stream_locality.specs.StreamParts.{PartsAreValid, PartsExist, PartsGrow, PartsContinue, StreamLocality};
ghost use Rattle.stream_locality.specs.KindKeys.{KindsAreProducts, KindLocality};

/// The part of a key of a valid stream is a valid stream.
pub fn parts_are_valid()
    ensures { PartsAreValid }
{}

/// Each stream has a part of each key.
pub fn parts_exist()
    ensures { PartsExist }
{}

/// The part of a key with one more event of the stream.
pub fn parts_grow()
    ensures { PartsGrow }
{}

/// The part of a longer stream begins with the part of the stream.
pub fn parts_continue()
    ensures { PartsContinue }
{}

/// Locality: a product has a legal order of a stream exactly where each of its objects has one of the
/// part of its key (Herlihy and Wing 1990, theorem 1).
pub fn stream_locality()
    ensures { StreamLocality }
{}

/// An object of a kind is a product of objects of this kind, one for each key.
pub fn kinds_are_products()
    ensures { KindsAreProducts }
{}

/// An object of a kind has a legal order of a stream exactly where it has one of each key's part.
pub fn kind_locality()
    ensures { KindLocality }
{}
