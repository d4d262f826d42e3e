use crate::came::Came;
use crate::command::TriedCommand;
use crate::enforced::Enforced;
use crate::ran::Ran;
use anyhow::{Context, Result};
use std::alloc::Global;
use std::thread::Threads;
use whole_runs::Turns;

/// A piece of work that takes memory.
#[derive(Drop)]
pub enum MemoryWork {
    /// A command, made by the top call.
    Command(TriedCommand),
    /// Two calls that check themselves.
    Enforced(Enforced),
    /// A whole run on a bench that is examined after the run.
    Ran(Ran),
}

impl MemoryWork {
    /// The work of this name, with all that it works on.
    pub fn prepare(alloc: Global, name: &str) -> Result<MemoryWork> {
        match name {
            "enforce" => Ok(MemoryWork::Enforced(Enforced::new(Turns::EnqueueFirst))),
            "enforce-turned" => Ok(MemoryWork::Enforced(Enforced::new(Turns::DequeueFirst))),
            "enforce-after" => Ok(MemoryWork::Enforced(Enforced::new(Turns::AfterWhatStands))),
            "run_over" => Ok(MemoryWork::Ran(Ran::new(alloc)?)),
            _ => {
                let command = TriedCommand::of_name(alloc, name)?;
                Ok(MemoryWork::Command(command.context("a work")?))
            }
        }
    }

    /// Does the work.
    pub fn act<R: AllocGlobal + Threads + Sync>(&mut self, rt: &R) {
        match self {
            MemoryWork::Command(command) => command.act(rt),
            MemoryWork::Enforced(calls) => calls.act(rt, rt.alloc()),
            MemoryWork::Ran(run) => run.act(rt, rt.alloc()),
        }
    }

    /// The outcome of the work.
    pub fn came(&self, alloc: Global) -> Came {
        match self {
            MemoryWork::Command(command) => command.came(alloc),
            MemoryWork::Enforced(calls) => calls.came(),
            MemoryWork::Ran(run) => run.came(),
        }
    }
}
