use crate::alone::agrees;
use crate::cuts::try_cuts;
use crate::schedules::try_told;
use crate::trial::{Attempt, Told, Trial};
use anyhow::{Result, anyhow};
use selfcheck::{MemorySink, MemorySource, Sink, Source, SteadySource, read_all};
use std::alloc::Global;
use std::thread::Threads;

/// The status of a failed read.
const READ_FAULT: u8 = 4;

/// The status of a failed write.
const WRITE_FAULT: u8 = 5;

/// What the top call is given in a case, and what it is to answer.
#[derive(Drop)]
pub struct Case {
    pub name: String,
    pub words: Vec<String>,
    pub input: Vec<u8>,
    pub trial: Trial,
    pub source_fails: Vec<u64>,
    pub source_most: usize,
    pub is_steady: bool,
    pub sink_fails: Vec<u64>,
    pub sink_most: usize,
    pub sink_room: usize,
    pub wanted: Vec<u8>,
    pub left: Option<usize>,
    pub status: u8,
}

/// How a case went: whether it passed, and what is printed where it didn't.
#[derive(Drop)]
pub struct CaseOutcome {
    pub passed: bool,
    pub report: String,
}

impl CaseOutcome {
    // The outcome of a trial whose attempts have all passed.
    fn good(alloc: Global) -> Result<CaseOutcome> {
        Ok(CaseOutcome {
            passed: true,
            report: String::new(alloc),
        })
    }

    // The outcome of the case with this name: it passed where no fault was found, and else its
    // report tells the fault.
    fn of(alloc: Global, name: &str, found: Result<()>) -> Result<CaseOutcome> {
        match found {
            Ok(()) => CaseOutcome::good(alloc),
            Err(fault) => Ok(CaseOutcome {
                passed: false,
                report: format!(in alloc; "{name}: {fault}")?,
            }),
        }
    }

    // The outcome of an attempt, with a report that also tells which read or write of it fails.
    fn at(self, alloc: Global, call: &str, number: u64) -> Result<CaseOutcome> {
        let report = format!(in alloc; "{}, where {call} {number} fails", self.report)?;
        Ok(CaseOutcome {
            passed: self.passed,
            report,
        })
    }
}

impl Case {
    /// A case with no words and no input, over a source and a sink that never fail.
    pub fn new(alloc: Global, name: &str) -> Result<Case> {
        Ok(Case {
            name: String::from_str(alloc, name)?,
            words: Vec::new(alloc),
            input: Vec::new(alloc),
            trial: Trial::Once,
            source_fails: Vec::new(alloc),
            source_most: usize::MAX,
            is_steady: false,
            sink_fails: Vec::new(alloc),
            sink_most: usize::MAX,
            sink_room: 1 << 20,
            wanted: Vec::new(alloc),
            left: None,
            status: 0,
        })
    }

    /// Runs the case. Where it is one that is tried once as it is, passes, and expects a verdict of
    /// `verify`, its book is judged in two further ways: by sets of one call each, which have to
    /// give the same verdict, and, where the book is to be legal, at its smaller cuts.
    pub fn run_with_cuts<R: AllocGlobal + Threads + Sync>(&self, rt: &R) -> Result<CaseOutcome> {
        let outcome = self.run(rt)?;
        if !outcome.passed || self.trial != Trial::Once {
            return Ok(outcome);
        }
        let Some(is_legal) = self.wanted_verdict() else {
            return Ok(outcome);
        };
        CaseOutcome::of(
            rt.alloc(),
            &self.name,
            self.try_further(rt.alloc(), is_legal),
        )
    }

    // Judges the book by sets of one call each, and a legal book at its smaller cuts as well.
    fn try_further(&self, alloc: Global, is_legal: bool) -> Result<()> {
        if !agrees(alloc, &self.input, is_legal)? {
            return Err(anyhow!("by sets of single calls the verdict is another"));
        }
        if is_legal {
            try_cuts(alloc, &self.input)?;
        }
        Ok(())
    }

    // Whether the case expects `verify` to find its input legal, or illegal, if it expects either.
    fn wanted_verdict(&self) -> Option<bool> {
        let [word] = self.words.as_slice() else {
            return None;
        };
        if word.as_str() != "verify" {
            return None;
        }
        if self.wanted.as_slice() == b"legal\n".as_slice() {
            return Some(true);
        }
        if self.wanted.as_slice() == b"illegal\n".as_slice() {
            return Some(false);
        }
        None
    }

    /// Runs the top call on the case, as it is, or in each of the ways of its trial.
    pub fn run<R: AllocGlobal + Threads + Sync>(&self, rt: &R) -> Result<CaseOutcome> {
        match self.trial {
            Trial::Once => self.run_once(rt),
            Trial::Prefixes => self.run_prefixes(rt),
            Trial::Reads => self.run_failing_reads(rt),
            Trial::Writes => self.run_failing_writes(rt),
            Trial::AnySchedule(told) => CaseOutcome::of(
                rt.alloc(),
                &self.name,
                self.run_any_schedule(rt, told),
            ),
        }
    }

    // Runs a case whose output is examined instead of being compared.
    fn run_any_schedule<R: AllocGlobal + Threads + Sync>(&self, rt: &R, told: Told) -> Result<()> {
        let mut sink = self.sink(rt.alloc(), &self.sink_fails, self.sink_most)?;
        let mut source = SteadySource::new(self.input.to_vec(rt.alloc())?);
        let (status, _) = self.answer(rt, &mut source, &mut sink)?;
        if status != self.status {
            return Err(anyhow!("status {status} for {}", self.status));
        }
        try_told(rt, told, sink.bytes())
    }

    fn run_once<R: AllocGlobal + Threads + Sync>(&self, rt: &R) -> Result<CaseOutcome> {
        let attempt = Attempt {
            input: &self.input,
            source_fails: &self.source_fails,
            source_most: self.source_most,
            sink_fails: &self.sink_fails,
            sink_most: self.sink_most,
            wanted: &self.wanted,
            status: self.status,
        };
        self.run_on(rt, &attempt)
    }

    // Runs a case with each prefix of the input, but not with the whole input. Each prefix has to
    // be refused as a text that is cut.
    fn run_prefixes<R: AllocGlobal + Threads + Sync>(&self, rt: &R) -> Result<CaseOutcome> {
        for count in 0..self.input.len() {
            let prefix = &self.input[..count];
            let wanted = refusal_of_prefix(rt.alloc(), prefix)?;
            let attempt = Attempt {
                input: prefix,
                source_fails: &self.source_fails,
                source_most: self.source_most,
                sink_fails: &self.sink_fails,
                sink_most: self.sink_most,
                wanted: wanted.as_bytes(),
                status: self.status,
            };
            let outcome = self.run_on(rt, &attempt)?;
            if !outcome.passed {
                return Ok(outcome);
            }
        }
        CaseOutcome::good(rt.alloc())
    }

    // Runs a case whose source gives one byte a read, once for each read up to the one that finds
    // the end, where this read fails; and once more, where the read that is to fail isn't made.
    fn run_failing_reads<R: AllocGlobal + Threads + Sync>(&self, rt: &R) -> Result<CaseOutcome> {
        let last = (self.input.len() as u64).saturating_add(1);
        for failing in 1..=last.saturating_add(1) {
            let is_made = failing <= last;
            let attempt = Attempt {
                input: &self.input,
                source_fails: &[failing],
                source_most: 1,
                sink_fails: &self.sink_fails,
                sink_most: self.sink_most,
                wanted: if is_made { b"" } else { &self.wanted },
                status: if is_made { READ_FAULT } else { self.status },
            };
            let outcome = self.run_on(rt, &attempt)?;
            if !outcome.passed {
                return outcome.at(rt.alloc(), "read", failing);
            }
        }
        CaseOutcome::good(rt.alloc())
    }

    // Runs a case whose sink takes one byte a write, once for each write of the expected output,
    // where this write fails; and once more, where the write that is to fail isn't made.
    fn run_failing_writes<R: AllocGlobal + Threads + Sync>(&self, rt: &R) -> Result<CaseOutcome> {
        for taken in 0..=self.wanted.len() {
            let failing = (taken as u64).saturating_add(1);
            let attempt = Attempt {
                input: &self.input,
                source_fails: &self.source_fails,
                source_most: self.source_most,
                sink_fails: &[failing],
                sink_most: 1,
                wanted: &self.wanted[..taken],
                status: if taken < self.wanted.len() {
                    WRITE_FAULT
                } else {
                    self.status
                },
            };
            let outcome = self.run_on(rt, &attempt)?;
            if !outcome.passed {
                return outcome.at(rt.alloc(), "write", failing);
            }
        }
        CaseOutcome::good(rt.alloc())
    }

    // A sink with the case's capacity. The writes whose numbers are in `fails` fail, and a write
    // takes at most `most` bytes.
    fn sink(&self, alloc: Global, fails: &[u64], most: usize) -> Result<MemorySink> {
        let fails = fails.to_vec(alloc)?;
        MemorySink::new(alloc, self.sink_room, fails, most.max(1)).map_err(|_| anyhow!(
            "no memory for a sink"
        ))
    }

    fn run_on<R: AllocGlobal + Threads + Sync>(
        &self,
        rt: &R,
        attempt: &Attempt,
    ) -> Result<CaseOutcome> {
        let alloc = rt.alloc();
        let input = attempt.input.to_vec(alloc)?;
        let mut sink = self.sink(alloc, attempt.sink_fails, attempt.sink_most)?;
        let (status, left) = if self.is_steady {
            self.answer(rt, &mut SteadySource::new(input), &mut sink)?
        } else {
            let fails = attempt.source_fails.to_vec(alloc)?;
            let mut source = MemorySource::new(input, fails, attempt.source_most.max(1));
            self.answer(rt, &mut source, &mut sink)?
        };
        let passed = status == attempt.status
            && left == self.left
            && sink.bytes() == attempt.wanted;
        let text = String::from_utf8_lossy(alloc, sink.bytes())?;
        let report = format!(in alloc;
            "{}: status {status} for {}, {left:?} bytes left for {:?}, and wrote {text:?}",
            self.name, attempt.status, self.left
        )?;
        Ok(CaseOutcome { passed, report })
    }

    // Makes the top call, and answers its status and, where the case says how many bytes the source
    // is to have left, how many it has.
    fn answer<R: AllocGlobal + Threads + Sync, S: Source, K: Sink>(
        &self,
        rt: &R,
        source: &mut S,
        sink: &mut K,
    ) -> Result<(u8, Option<usize>)> {
        let status = selfcheck::selfcheck(rt, rt.alloc(), &self.words, source, sink).code();
        if self.left.is_none() {
            return Ok((status, None));
        }
        let rest = read_all(rt.alloc(), source).map_err(|_| anyhow!("the rest can't be read"))?;
        Ok((status, Some(rest.len())))
    }
}

// The answer to a prefix of a text that isn't whole: the line that is cut is the one after the last
// line feed.
fn refusal_of_prefix(alloc: Global, prefix: &[u8]) -> Result<String> {
    let line_feeds = prefix.iter().filter(|byte| **byte == b'\n').count();
    Ok(format!(in alloc; "refused {} Cut\n", line_feeds.saturating_add(1))?)
}
