//! Laws of the commands.

ghost use Rattle.std.specs.Prelude.{ℕ};
ghost use Rattle.selfcheck.specs.declared.command.Command.TheVariants.{Order, Sets, Sketch, Soak, Upgrade, Verify};
ghost use Rattle.selfcheck.specs.Command.{HaveTheirCommand};
ghost use Rattle.selfcheck.specs.Output.{IsDetermined, RefuseWhatIsNotTaken, SoaksDeliverAll};
ghost use Rattle.selfcheck.specs.UpgradeLaws.{UpgradesSayTheSame, UpgradesKeepOrders};

/// Command words name a command exactly where they are its words and, if it is a soak, its number
/// is at most 4,294,967,295.
pub fn words_have_their_command()
    ensures { HaveTheirCommand }
{}

/// An output refuses the input exactly where the command doesn't take it.
pub fn what_is_not_taken_is_refused()
    ensures { RefuseWhatIsNotTaken }
{}

/// The bytes read determine the output of `verify`.
#[tactic(auto, using(crate::proofs::OutputLemmas::verify_is_determined))]
pub fn verify_has_one_output()
    ensures { IsDetermined Verify }
{}

/// The bytes read determine the output of `sketch`.
#[tactic(auto, using(crate::proofs::OutputLemmas::sketch_is_determined))]
pub fn sketch_has_one_output()
    ensures { IsDetermined Sketch }
{}

/// The bytes read determine the output of `order`.
#[tactic(auto, using(crate::proofs::OutputLemmas::order_is_determined))]
pub fn order_has_one_output()
    ensures { IsDetermined Order }
{}

/// The bytes read determine the output of `upgrade`.
#[tactic(auto, using(crate::proofs::OutputLemmas::upgrade_is_determined))]
pub fn upgrade_has_one_output()
    ensures { IsDetermined Upgrade }
{}

/// What is read from the output of `upgrade` is what is read from its input: the same book, or the
/// same script.
#[tactic(auto, using(crate::proofs::OutputLemmas::upgrades_say_the_same))]
pub fn an_upgrade_says_the_same()
    ensures { UpgradesSayTheSame }
{}

/// The book that `upgrade` writes has exactly the legal orders of the book that it reads.
pub fn an_upgrade_keeps_the_legal_orders()
    ensures { UpgradesKeepOrders }
{}

/// The bytes read determine the output of `sets`.
#[tactic(auto, using(crate::proofs::OutputLemmas::sets_is_determined))]
pub fn sets_has_one_output()
    ensures { IsDetermined Sets }
{}

/// A number determines the output of its soak: its 128 calls are all delivered.
#[tactic(auto, using(crate::proofs::OutputLemmas::soak_is_determined, crate::proofs::OutputLemmas::soaks_deliver_all))]
pub fn soak_has_one_output()
    // For each number a soak has at most one output, a status and a text.
    ensures determined { (number : ℕ) → IsDetermined (Soak number) }
    // All 128 calls of a soak are delivered, none is an error, and its status is `Fine`.
    ensures delivered { SoaksDeliverAll }
{}
