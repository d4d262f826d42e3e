ghost use Rattle.std.specs.Prelude.{◌≡◌, ◌<◌, length, slice_get, slice_index_or, Some, None};
ghost use Rattle.text_fields.specs.declared.version.Version.TheVariants.{Second};
ghost use Rattle.client_scripts.specs.Plans.{IsPlan, IsCall, operations_of};
ghost use Rattle.client_scripts.specs.ScriptLayout.{plan_in};

use book_base::{Call, OpWord};
use seq_objects::Kind;
use std::marker::Model;

/// What one caller is to do.
#[derive(Debug, Drop)]
pub(crate) struct CallerScript {
    pub(crate) operations: Vec<OpWord>,
    pub(crate) stop: Option<u64>,
}

/// What the callers of a concurrent object are to do.
///
/// Clauses see it as a plan: the kind of the object, the operations of each caller's calls, the
/// stop of each caller, and the list of turns. At all times it is one that texts of version 2 can
/// have.
#[derive(Debug, Drop)]
pub struct Script {
    kind: Kind,
    clients: Vec<CallerScript>,
    turns: Vec<u32>,
}

impl Model for Script {
    ghost use Rattle.text_fields.specs.declared.version.Version.TheVariants.{Second};
    ghost use Rattle.client_scripts.specs.Plans.{Plan, IsPlan};

    ghost Value = { Plan };

    ghost use Rattle.client_scripts.specs.ScriptLayout.{plan_in};

    ghost view = { λ s. plan_in s.kind s.clients.items s.turns.items };

    ghost invariant = { λ s. IsPlan Second (plan_in s.kind s.clients.items s.turns.items) };
}

impl Script {
    /// The script with these parts.
    pub(crate) fn from_parts(kind: Kind, clients: Vec<CallerScript>, turns: Vec<u32>) -> Script
        requires { IsPlan Second (plan_in kind clients.items turns.items) }
        ensures { result ≡ plan_in kind clients.items turns.items }
    {
        Script {
            kind,
            clients,
            turns,
        }
    }

    /// The kind of the object.
    pub fn kind(&self) -> Kind
        ensures { result ≡ self.now.kind }
    {
        self.kind
    }

    /// The number of callers.
    pub fn callers(&self) -> u32
        // The answer is how many callers the script has.
        ensures count { result ≡ length self.now.operations }
        // The script is one that texts of version 2 have.
        ensures plan { IsPlan Second self.now }
    {
        self.clients.len() as u32
    }

    /// How many calls a caller makes.
    pub fn calls(&self, i: u32) -> u64
        // The caller is one of the script's.
        requires { i < length self.now.operations }
        // The answer is how many operations the script has for the caller.
        ensures { result ≡ length (operations_of self.now i) }
    {
        self.clients[i as usize].operations.len() as u64
    }

    /// The operation words of a caller, one a call.
    pub fn operations(&self, i: u32) -> &[OpWord]
        // The caller is one of the script's.
        requires { i < length self.now.operations }
        // The answer has the caller's operation words in the order of its calls.
        ensures { result.now ≡ operations_of self.now i }
    {
        &self.clients[i as usize].operations
    }

    /// The operation word of a call.
    pub fn op(&self, call: Call) -> OpWord
        // The call is one of the script's.
        requires { IsCall self.now call }
        // The answer is the operation word that the script has for the call.
        ensures { slice_get (operations_of self.now call.caller) call.number ≡ Some result }
    {
        self.clients[call.caller as usize].operations[call.number as usize]
    }

    /// After how many phases a caller stops, counted over all its calls, where it does.
    pub fn stop(&self, i: u32) -> Option<u64>
        // The caller is one of the script's.
        requires { i < length self.now.operations }
        // The answer is the caller's stop in the script.
        ensures { result ≡ slice_index_or self.now.stops i None }
    {
        self.clients[i as usize].stop
    }

    /// The callers that take turns, one after the other.
    pub fn turns(&self) -> &[u32]
        ensures { result.now ≡ self.now.turns }
    {
        &self.turns
    }
}
