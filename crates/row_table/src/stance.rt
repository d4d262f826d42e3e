ghost use Rattle.std.specs.Prelude.{◌≡◌, true, None};

use crate::action::Opening;
use world_core::Region;

/// What a caller means to do: whether it makes calls, the region of the scan that its next look
/// begins, and the reply that it keeps for the view's scan. No word of the table changes with it.
#[derive(Clone, Copy, Debug)]
pub struct Stance {
    pub live: bool,
    pub begins: Option<Region>,
    pub reply: Option<u64>,
}

impl Stance {
    ghost use Rattle.row_table.specs.Stances.{opening_by, looked};

    // The stance of a caller at the start.
    pub fn fresh() -> Stance
        ensures { result ≡ record { live = true; begins = None; reply = None } }
    {
        Stance {
            live: true,
            begins: None,
            reply: None,
        }
    }

    // What the next look of a caller with this stance begins.
    pub fn opening(&self) -> Opening
        ensures { result ≡ opening_by self.now }
    {
        match (self.begins, self.reply) {
            (None, _) => Opening::Nothing,
            (Some(Region::N), Some(reply)) => Opening::View(reply),
            (Some(_), _) => Opening::Scan,
        }
    }

    // Makes the stance the one after a look: the caller means to begin no scan any more, and keeps
    // no reply that the look carried.
    pub fn look(&mut self)
        ensures { self.new ≡ looked self.old }
    {
        if let Opening::View(_) = self.opening() {
            self.reply = None;
        }
        self.begins = None;
    }
}
