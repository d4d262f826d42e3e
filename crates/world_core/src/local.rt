use std::marker::Model;

/// One caller's state in the world: its operations, replies, views and seen cuts; its counts and
/// its phase; the cuts that its rows embed, and its steps on object words; its staged words, its
/// cut to embed and its scan under way; the counts that it looked at, the words that it peeked, and
/// the cuts that its scans gave.
///
/// Clauses see a value as the local that `specs/Local.antt` defines. Locals occur in clauses alone,
/// as what the seats of the table know, so no code makes a value of this type.
pub struct Local;

impl Model for Local {
    ghost use Rattle.world_core.specs.Local.{Local, fresh};

    ghost Value = { Local };

    ghost view = { λ _. fresh };
}
