ghost use Rattle.std.specs.Prelude.{◌≡◌, ◌≢◌, IfSome, IfNone};
ghost use Rattle.test_objects.specs.declared.behaviour.Behaviour.{Behaviour};
ghost use Rattle.test_objects.specs.Names.{behaviour_name};

/// An object that can be run, by its name.
#[derive(Clone, Copy, Debug, PartialEq, Eq)]
pub enum Behaviour {
    Lawful,
    Tally,
    Cell,
    Lossy,
    Twice,
    Late,
    Invent,
    Split,
    Onepass,
}

/// All behaviours.
const BEHAVIOURS: &[Behaviour] = &[
    Behaviour::Lawful,
    Behaviour::Tally,
    Behaviour::Cell,
    Behaviour::Lossy,
    Behaviour::Twice,
    Behaviour::Late,
    Behaviour::Invent,
    Behaviour::Split,
    Behaviour::Onepass,
];

impl Behaviour {
    /// The behaviour with this name.
    pub fn from_name(name: &[u8]) -> Option<Behaviour>
        // A returned behaviour has this name.
        ensures found { IfSome result (λ b. behaviour_name b ≡ name.now) }
        // `None` is returned only where no behaviour has this name.
        ensures none { IfNone result ((b : Behaviour) → behaviour_name b ≢ name.now) }
    {
        BEHAVIOURS
            .iter()
            .find(|behaviour| behaviour.name().as_bytes() == name)
            .copied()
    }

    /// The name of the behaviour.
    #[tactic(auto, unfolding(crate::specs::Names::behaviour_name))]
    pub fn name(self) -> &'static str
        ensures { result.now ≡ behaviour_name self }
    {
        match self {
            Behaviour::Lawful => "lawful",
            Behaviour::Tally => "tally",
            Behaviour::Cell => "cell",
            Behaviour::Lossy => "lossy",
            Behaviour::Twice => "twice",
            Behaviour::Late => "late",
            Behaviour::Invent => "invent",
            Behaviour::Split => "split",
            Behaviour::Onepass => "onepass",
        }
    }
}
