//! The forms in which a catch is shown.

ghost use Rattle.std.specs.Prelude.{◌≡◌};
ghost use Rattle.hunts.specs.Asking.{shown_named};

/// The form in which a catch is shown.
#[derive(Clone, Copy, Debug, PartialEq, Eq)]
pub enum Shown {
    /// The text of the smaller book of the catch's witness.
    Smaller,
    /// The text of the catch's report, and after it that of its witness.
    Report,
    /// The picture of the smaller book of the catch's witness.
    Picture,
    /// The texts of the catch's report, its witness and the smaller book, and the smaller book's
    /// picture.
    Finding,
}

impl Shown {
    /// The form of a catch that a word asks for.
    #[tactic(auto, unfolding(crate::specs::Asking::shown_named))]
    pub(crate) fn from_name(name: &str) -> Option<Shown>
        ensures { result ≡ shown_named name.now }
    {
        match name {
            "report" => Some(Shown::Report),
            "picture" => Some(Shown::Picture),
            "finding" => Some(Shown::Finding),
            _ => None,
        }
    }
}
