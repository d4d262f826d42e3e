ghost use Rattle.std.specs.Prelude.{◌≡◌};
ghost use Rattle.text_fields.specs.FaultName.{fault_name};

use book_base::What;

/// The name of a fault of a text, as it is printed.
#[tactic(auto, unfolding(crate::specs::FaultName::fault_name))]
pub fn name_of(what: What) -> &'static str
    ensures { result.now ≡ fault_name what }
{
    match what {
        What::Long => "Long",
        What::Cut => "Cut",
        What::Head => "Head",
        What::Object => "Object",
        What::Callers => "Callers",
        What::Calls => "Calls",
        What::Place => "Place",
        What::Op => "Op",
        What::Gap => "Gap",
        What::Reply => "Reply",
        What::View => "View",
        What::ViewOutside => "ViewOutside",
        What::ViewLacksOwn => "ViewLacksOwn",
        What::ViewHasLater => "ViewHasLater",
        What::ViewsCross => "ViewsCross",
        What::Mark => "Mark",
        What::Seen => "Seen",
        What::Last => "Last",
        What::Stop => "Stop",
        What::Turns => "Turns",
        What::End => "End",
        What::Rest => "Rest",
    }
}
