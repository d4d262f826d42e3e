use crate::form::{ReaderAnswer, TextForm};
use anyhow::Result;
use book_base::What;
use std::alloc::Global;

/// The answers of a form's reader to the texts so far.
#[derive(Drop)]
pub struct ReadingCounts {
    pub form: TextForm,
    /// How many texts were read, and written back as they were.
    pub kept: u64,
    /// How many texts were read, and not written back as they were.
    pub changed: u64,
    /// How many texts were refused, by the name of the fault.
    pub refused: Vec<(What, u64)>,
}

impl ReadingCounts {
    /// The counts before any text.
    pub fn new(alloc: Global, form: TextForm) -> ReadingCounts {
        ReadingCounts {
            form,
            kept: 0,
            changed: 0,
            refused: Vec::new(alloc),
        }
    }

    /// Lets the reader read a text. The answer is whether the text was refused, or is written back
    /// as it was.
    pub fn count_reading(&mut self, alloc: Global, bytes: &[u8]) -> Result<bool> {
        match self.form.answer(alloc, bytes)? {
            ReaderAnswer::Written(text) if text.as_slice() == bytes => {
                self.kept = self.kept.saturating_add(1);
                Ok(true)
            }
            ReaderAnswer::Written(_) => {
                self.changed = self.changed.saturating_add(1);
                Ok(false)
            }
            ReaderAnswer::Refused(what) => {
                self.count(what)?;
                Ok(true)
            }
        }
    }

    fn count(&mut self, wanted: What) -> Result<()> {
        for (what, count) in &mut self.refused {
            if *what == wanted {
                *count = count.saturating_add(1);
                return Ok(());
            }
        }
        self.refused.push((wanted, 1))?;
        Ok(())
    }
}
