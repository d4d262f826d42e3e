//! Laws of locality. Each is the contract of a function with nothing in it.

ghost use Rattle.locality.specs.Locality.{ProductsExist, ProductsAreKeyed, PartsAreBooks, LegalWholesHaveLegalParts, Locality, RunsOfProducts};

/// Each family of objects has a product.
pub fn products_exist()
    ensures { ProductsExist }
{}

/// A product is an object of keys.
pub fn products_are_keyed()
    ensures { ProductsAreKeyed }
{}

/// The part of a key is a valid book where the book is and the part's views are as wide as it, and
/// each of its views holds at most one unanswered call of each caller where the book's views do.
pub fn parts_are_books()
    ensures { PartsAreBooks }
{}

/// Where a product has a legal order of a book, each of its objects has one of the part of its key.
pub fn legal_wholes_have_legal_parts()
    ensures { LegalWholesHaveLegalParts }
{}

/// The runs of a product are those whose steps of each key are a run of the key's object.
pub fn runs_of_products()
    ensures { RunsOfProducts }
{}

/// Locality: where each view of a valid book holds at most one unanswered call of each caller, a
/// product has a legal order of the book exactly where each of its objects has one of the part of
/// its key (Herlihy and Wing 1990, theorem 1).
pub fn locality()
    ensures { Locality }
{}
