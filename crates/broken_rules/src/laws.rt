//! The law of broken rules, as the contract of a function with an empty body.

ghost use Rattle.broken_rules.specs.Rules.{WhatBreaksIsIllegal};

/// A book that breaks a rule of its kind has no legal order, where it has no more callers and calls
/// than a book may have.
pub fn what_breaks_is_illegal()
    ensures { WhatBreaksIsIllegal }
{}
