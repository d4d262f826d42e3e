//! The law of projection: a run of any program, without its object steps, is a run of the program
//! whose object is outside the world.

ghost use Rattle.world_laws.specs.Projection.{RunsProject, BeginningsProject, BooksProject};

/// A run of any program, without its object steps, is a run of the program whose object is outside
/// the world. At each moment the two have the same words but for the object words, and the same
/// locals but for their object steps, and so the same scans, cuts and books. They have the same
/// object history.
pub fn runs_project()
    // A run without its object steps is a run of the program whose object is outside the world. The
    // two end in the same words but for the object words, and in the same locals but for their
    // object steps, and they have the same object history.
    ensures runs { RunsProject }
    // A prefix of a run, without its object steps, is a prefix of the run without its object steps;
    // so what `runs` says of the end of a run holds at each of its moments.
    ensures moments { BeginningsProject }
    // The book of some locals is that of the same locals without their object steps.
    ensures books { BooksProject }
{}
