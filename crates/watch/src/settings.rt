//! The command words.

/// At how many descriptions of one key the calls of a return are placed at most, where the command
/// words don't say it.
const MOST: usize = 10_000;

/// How many events of one object are held back at most, where the command words don't say it.
const WINDOW: usize = 64;

/// The greatest number of events that may be held back.
const MOST_WINDOW: u64 = 4096;

/// What the command words say: after how many lines each it is said that the stream is legal so
/// far, at how many descriptions of one key calls are placed at most, and how many events of one
/// object are held back at most.
#[derive(Clone, Copy, Debug, PartialEq, Eq)]
pub struct Settings {
    pub every: Option<u64>,
    pub most: usize,
    pub window: usize,
}

impl Settings {
    /// The settings without command words.
    pub fn new() -> Settings {
        Settings {
            every: None,
            most: MOST,
            window: WINDOW,
        }
    }

    /// Sets what a flag names, and answers whether it can be set to this.
    pub fn set(&mut self, flag: &str, count: u64) -> bool {
        match flag {
            "--every" if count > 0 => self.every = Some(count),
            "--most" if count > 0 => self.most = count as usize,
            "--window" if count <= MOST_WINDOW => self.window = count as usize,
            _ => return false,
        }
        true
    }
}
