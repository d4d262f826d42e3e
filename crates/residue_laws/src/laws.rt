//! Laws of residues. Each is the contract of a function with nothing in it.

ghost use Rattle.residue_laws.specs.Laws.{ResiduesDecide, PrefixesHaveOne, OnlyReturnsRefute, EmptyResidue, ResiduesAreClosed, ResiduesStep, ResiduesSettle, PendingCallsSettle, LateResiduesSuffice, LateResiduesStep, AgreeingOnesDecide, AgreeingOnesStep};
ghost use Rattle.residue_laws.specs.Simulation.{RetainedOnesDecide, RetainedOnesAreSound, RetainedOnesServe, ConfigurationsAreFaithful};

use crate::descriptions::Descriptions;

/// A stream has a legal order exactly where its residue has a configuration.
pub fn residues_decide()
    ensures { ResiduesDecide }
{}

/// Where a stream has a legal order, each of its prefixes has one, and so has the stream after one
/// more call or loss. So a stream without a legal order never has one again, and its first prefix
/// without one ends in a return.
pub fn refutations_are_final()
    // Where a stream has a legal order, each of its prefixes has one.
    ensures prefixes { PrefixesHaveOne }
    // A stream that has a legal order still has one after a call, and after a loss.
    ensures returns { OnlyReturnsRefute }
{}

/// The residue is known event by event: it begins with the object's first list, and each event
/// makes of it exactly the configurations to which those before it step.
pub fn residues_step()
    // The residue of the empty stream has no placed calls and the object's first list.
    ensures empty { EmptyResidue }
    // A residue has with a configuration each to which a call that may be placed there leads.
    ensures closed { ResiduesAreClosed }
    // The residue after one more event of a valid stream has exactly the configurations to which
    // those of the residue before it step.
    ensures step { ResiduesStep }
{}

/// However a stream continues, it has a legal order exactly where some configuration of its residue
/// has a legal continuation.
pub fn residues_settle()
    ensures { ResiduesSettle }
{}

/// It is enough to place calls at returns, and only those that come before the call that returns
/// (Wing and Gong 1993; Lowe 2017).
pub fn late_residues_suffice()
    // The residue has exactly the configurations to which calls that are placed at those of the
    // late residue lead.
    ensures all { LateResiduesSuffice }
    // The late residue after one more event of a valid stream has exactly the configurations to
    // which those of the late residue before it step late.
    ensures step { LateResiduesStep }
{}

/// Which continuations are legal from a configuration depends on the pending calls of the stream
/// and on the events that follow alone.
pub fn pending_calls_settle()
    ensures { PendingCallsSettle }
{}

/// Where the replies of the next returns are known, the configurations that agree with them are
/// enough. If there are none, the stream with these returns has no legal order.
pub fn agreeing_ones_suffice()
    // However the stream continues after the known events, it has a legal order exactly where some
    // configuration that agrees with them has a legal continuation.
    ensures decide { AgreeingOnesDecide }
    // Those that agree after one more event are reached by a step from those that agree before it.
    ensures step { AgreeingOnesStep }
{}

/// Faithful descriptions decide each valid stream: one is retained exactly where the stream has a
/// legal order.
pub fn descriptions_decide<D: Descriptions>()
    // A valid stream has a legal order exactly where a description is retained after it.
    ensures decide { RetainedOnesDecide {D = D} D.spec D.retained }
    // What a retained description means is in the residue.
    ensures sound { RetainedOnesAreSound {D = D} D.spec D.retained D.means }
    // For each configuration of the late residue a description is retained that serves for it.
    ensures serve { RetainedOnesServe {D = D} D.spec D.retained D.serves }
{}

/// The configurations of the late residue are faithful descriptions of themselves, for every
/// object.
pub fn configurations_are_faithful()
    ensures { ConfigurationsAreFaithful }
{}
