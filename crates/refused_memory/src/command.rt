use crate::came::Came;
use crate::great_book::{book_of_rounds, great_book};
use anyhow::{Result, anyhow};
use report_text::read_report;
use reports::Counts;
use selfcheck::{MemorySink, Status, SteadySource};
use std::alloc::Global;
use std::thread::Threads;

/// The capacity of a sink, which each output fits in.
const CAPACITY: usize = 1 << 16;

/// The book of two calls of a queue: 5 is enqueued, and then dequeued.
const BOOK: &[u8] = b"book 2\n\
      object queue\n\
      callers 2\n\
      calls 1 1\n\
      0 0 enq 5 done view 0:1\n\
      1 0 deq =5 view 0:1 1:1\n\
      end\n";

/// The book of two calls of a queue, 5 enqueued and then dequeued, as a text of version 1.
const OLD_BOOK: &[u8] = b"book 1\n\
      object queue\n\
      callers 2\n\
      calls 1 1\n\
      0 0 enq 5 done view 1 0\n\
      1 0 deq =5 view 1 1\n\
      end\n";

const SKETCH: &[u8] = b"sketch 2\n\
      call 0 0 enq 5\n\
      return 0 0 done\n\
      call 1 0 deq\n\
      return 1 0 =5\n\
      end\n";

const CERTIFICATE: &[u8] = b"book 2\n\
      object queue\n\
      callers 2\n\
      calls 1 1\n\
      0 0 enq 5 done view 0:1\n\
      1 0 deq =5 view 0:1 1:1\n\
      end\n\
      order 2\n\
      0 0 done\n\
      1 0 =5\n\
      end\n";

const SET_BOOK: &[u8] = b"setbook 2\n\
      object joins\n\
      callers 2\n\
      calls 1 1\n\
      0 0 join 0 =3 view 0:1 1:1\n\
      1 0 join 1 =3 view 0:1 1:1\n\
      end\n";

/// The script of two callers of a queue: one enqueues 5, and the other dequeues.
const SCRIPT: &[u8] = b"script 2\n\
      object queue\n\
      callers 2\n\
      calls 1 1\n\
      0 0 enq 5\n\
      1 0 deq\n\
      turns 0 0 0 0 0 1 1 1 1 1\n\
      end\n";

/// The script of one caller of a queue that loses each second item.
const LOST: &[u8] = b"script 2\n\
      object queue\n\
      callers 1\n\
      calls 5\n\
      0 0 enq 1\n\
      0 1 enq 2\n\
      0 2 deq\n\
      0 3 deq\n\
      0 4 deq\n\
      turns\n\
      end\n";

/// The report of the queue that loses each second item, and its witness.
const LOST_FOUND: &[u8] = b"report 2\n\
      object queue\n\
      callers 1\n\
      calls 4\n\
      0 0 enq 1 done view 0:1 ok seen 0:1\n\
      0 1 enq 2 done view 0:2 ok seen 0:2\n\
      0 2 deq =1 view 0:3 ok seen 0:3\n\
      0 3 deq none view 0:4 error seen 0:4\n\
      end\n\
      book 2\n\
      object queue\n\
      callers 1\n\
      calls 4\n\
      0 0 enq 1 done view 0:1\n\
      0 1 enq 2 done view 0:2\n\
      0 2 deq =1 view 0:3\n\
      0 3 deq none view 0:4\n\
      end\n";

/// The script of the queue that loses each second item, without its last call.
const LOST_UNJUDGED: &[u8] = b"script 2\n\
      object queue\n\
      callers 1\n\
      calls 4\n\
      0 0 enq 1\n\
      0 1 enq 2\n\
      0 2 deq\n\
      0 3 deq\n\
      turns\n\
      end\n";

/// What two monitors find of the queue that loses each second item.
const LOST_SEEN: &[u8] = b"illegal\n\
      book 2\n\
      object queue\n\
      callers 3\n\
      calls 4 0 0\n\
      0 0 enq 1 done view 0:1\n\
      0 1 enq 2 done view 0:2\n\
      0 2 deq =1 view 0:3\n\
      0 3 deq none view 0:4\n\
      end\n";

/// The report of two callers of a queue that call it one after the other.
const REPLAYED: &[u8] = b"report 2\n\
      object queue\n\
      callers 2\n\
      calls 1 1\n\
      0 0 enq 5 done view 0:1 ok seen 0:1\n\
      1 0 deq =5 view 0:1 1:1 ok seen 0:1 1:1\n\
      end\n";

/// The report of two callers of a queue where a put waits for its caller's next call, and the
/// witness of this report.
const REPLAYED_LATE: &[u8] = b"report 2\n\
      object queue\n\
      callers 2\n\
      calls 1 1\n\
      0 0 enq 5 done view 0:1 ok seen 0:1\n\
      1 0 deq none view 0:1 1:1 error seen 0:1 1:1\n\
      end\n\
      book 2\n\
      object queue\n\
      callers 2\n\
      calls 1 1\n\
      0 0 enq 5 done view 0:1\n\
      1 0 deq none view 0:1 1:1\n\
      end\n";

/// The script of one caller of a queue, which enqueues 5 and dequeues.
const CALLS_OF_ONE: &[u8] = b"script 2\n\
      object queue\n\
      callers 1\n\
      calls 2\n\
      0 0 enq 5\n\
      0 1 deq\n\
      turns\n\
      end\n";

/// The certificate of the run of one caller of a queue.
const CERTIFIED: &[u8] = b"book 2\n\
      object queue\n\
      callers 1\n\
      calls 2\n\
      0 0 enq 5 done view 0:1\n\
      0 1 deq =5 view 0:2\n\
      end\n\
      order 2\n\
      0 0 done\n\
      0 1 =5\n\
      end\n";

/// The expected output of a command, with ample memory.
#[derive(Clone, Copy)]
enum Wanted {
    Text(Status, &'static [u8]),
    /// The report of a run in threads: each of two calls is delivered.
    TwoDelivered,
}

/// A command, with its input and what it wrote.
#[derive(Drop)]
pub struct TriedCommand {
    words: Vec<String>,
    source: SteadySource,
    sink: MemorySink,
    status: Option<Status>,
    wanted: Wanted,
}

impl TriedCommand {
    fn new(alloc: Global, words: &[&str], input: Vec<u8>, wanted: Wanted) -> Result<TriedCommand> {
        let mut texts = Vec::new(alloc);
        for word in words {
            texts.push(String::from_str(alloc, word)?)?;
        }
        let sink = MemorySink::new(alloc, CAPACITY, Vec::new(alloc), CAPACITY).map_err(|_| anyhow!(
            "no memory for a sink"
        ))?;
        Ok(TriedCommand {
            words: texts,
            source: SteadySource::new(input),
            sink,
            status: None,
            wanted,
        })
    }

    /// The command that is tried under this name, with its input and its expected output, if there
    /// is one.
    pub fn of_name(alloc: Global, name: &str) -> Result<Option<TriedCommand>> {
        let (words, input, wanted): (&[&str], &[u8], Wanted) = match name {
            "run" => (&["run", "lawful"], SCRIPT, Wanted::TwoDelivered),
            "replay" => (
                &["replay", "lawful"],
                SCRIPT,
                Wanted::Text(Status::Fine, REPLAYED),
            ),
            "replay-late" => (
                &["replay", "late"],
                SCRIPT,
                Wanted::Text(Status::Found, REPLAYED_LATE),
            ),
            "certify" => (
                &["certify", "lawful"],
                CALLS_OF_ONE,
                Wanted::Text(Status::Fine, CERTIFIED),
            ),
            "soak" => (
                &["soak", "7"],
                b"",
                Wanted::Text(Status::Fine, b"calls 128 delivered 128 errors 0\n"),
            ),
            "run-lossy" => (
                &["run", "lossy"],
                LOST,
                Wanted::Text(Status::Found, LOST_FOUND),
            ),
            "monitor" => (
                &["monitor", "lawful"],
                SCRIPT,
                Wanted::Text(Status::Fine, b"legal\n"),
            ),
            "monitor-lossy" => (
                &["monitor", "lossy"],
                LOST_UNJUDGED,
                Wanted::Text(Status::Found, LOST_SEEN),
            ),
            "sketch" => (&["sketch"], BOOK, Wanted::Text(Status::Fine, SKETCH)),
            "order" => (
                &["order"],
                CERTIFICATE,
                Wanted::Text(Status::Fine, b"legal\n"),
            ),
            "upgrade" => (&["upgrade"], OLD_BOOK, Wanted::Text(Status::Fine, BOOK)),
            "sets" => (&["sets"], SET_BOOK, Wanted::Text(Status::Fine, b"legal\n")),
            "verify" => return TriedCommand::verify(alloc, great_book(alloc)?),
            "verify-rounds" => return TriedCommand::verify(alloc, book_of_rounds(alloc)?),
            _ => return Ok(None),
        };
        Ok(Some(TriedCommand::new(alloc, words, input.to_vec(alloc)?, wanted)?))
    }

    // The command `verify` on a book that has a legal order.
    fn verify(alloc: Global, book: Vec<u8>) -> Result<Option<TriedCommand>> {
        let wanted = Wanted::Text(Status::Fine, b"legal\n");
        Ok(Some(TriedCommand::new(alloc, &["verify"], book, wanted)?))
    }

    /// Runs the command by a call of `selfcheck`.
    pub fn act<R: AllocGlobal + Threads + Sync>(&mut self, rt: &R) {
        let status = selfcheck::selfcheck(
            rt,
            rt.alloc(),
            &self.words,
            &mut self.source,
            &mut self.sink,
        );
        self.status = Some(status);
    }

    /// The outcome of the command.
    pub fn came(&self, alloc: Global) -> Came {
        let Some(status) = self.status else {
            return Came::Nothing;
        };
        if status == Status::NoMemory {
            if self.sink.bytes().is_empty() {
                return Came::NoMemory;
            }
            return Came::Wrong;
        }
        let is_right = match self.wanted {
            Wanted::Text(wanted, text) => status == wanted && self.sink.bytes() == text,
            Wanted::TwoDelivered => {
                status == Status::Fine && tells_two_delivered(alloc, self.sink.bytes())
            }
        };
        if is_right {
            Came::Ordinary
        } else {
            Came::Wrong
        }
    }
}

// Whether a text is a report of two calls that were both delivered.
fn tells_two_delivered(alloc: Global, text: &[u8]) -> bool {
    match read_report(alloc, text) {
        Ok(report) => is_two_delivered(report.counts()),
        Err(_) => false,
    }
}

// Whether the counts of a report are those of two calls that are both delivered.
fn is_two_delivered(counts: Counts) -> bool {
    counts.calls == 2 && counts.delivered == 2 && counts.errors == 0
}
