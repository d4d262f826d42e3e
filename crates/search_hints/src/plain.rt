//! Objects that are judged by themselves: a search is told nothing of their books.

use crate::search_hints::SearchHints;
use seq_objects::{Counter, Register};

impl SearchHints for Counter {}

impl SearchHints for Register {}
