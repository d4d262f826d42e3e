//! What the program does with the lines of a stream, one by one.

ghost use Rattle.std.specs.Prelude.{◌≡◌, ◌≢◌, ℕ, ◌+◌, ◌<◌, ◌≤◌, ◌∷◌, ◌++◌, [], true, false, List, length, slice_get, IfOk, IfErr, IfSome, IfNone, OnOk, Some};
ghost use Rattle.stream_text.specs.Stream.{Said, Due, TitleDue, EventDue, Fails, with_event, events_of};
ghost use Rattle.stream_text.specs.Reader.{HasTables, HasRead};
ghost use Rattle.stream_text.specs.Refusal.{stream_refusal_text};
ghost use Rattle.stream_text.specs.Source.{IsWholeLine};
ghost use Rattle.stream_text.specs.declared.fault.StreamError.TheVariants as errors;
ghost use Rattle.stream_text.specs.declared.fault.Wrong.{Wrong};
ghost use Rattle.stream_text.specs.declared.fault.Wrong.TheVariants as wrongs;
ghost use Rattle.stream_text.specs.declared.line_source.NextLine.{NextLine};
ghost use Rattle.stream_text.specs.declared.line_source.NextLine.TheVariants as next_lines;
ghost use Rattle.stream_text.specs.declared.reader.Phase.TheVariants as phases;
ghost use Rattle.watch_core.specs.Event.{event_of};
ghost use Rattle.watch.specs.Output.{OutputLine, Legal, Illegal, text_of, output_text};
ghost use Rattle.watch.specs.Lines.{Says, head_lines, lines_of};
ghost use Rattle.watch.specs.Account.{Has, IsUnsureTold, IsOutput};
ghost use Rattle.watch.specs.Timely.{IsDue, IsTimely, IsPunctual, IsPunctualBut};
ghost use Rattle.watch.specs.Ending.{EndsAt, IsWrongNext, HasCome};
ghost use Rattle.watch.specs.Watching.{StandsAs, SaysSoFar, AreWatched, AreNamed, Holds, IsNext, IsFinding, IsBefore, IsSettled, AreSettled, Tells, Closes};
ghost use Rattle.watch.specs.declared.ending.Ending.TheVariants as endings;
ghost use Rattle.watch.specs.declared.objects.Standing.TheVariants as standings;
ghost use Rattle.watch.specs.declared.settings.Settings.{Settings};

use crate::ending::Ending;
use crate::objects::{Object, Standing};
use crate::settings::Settings;
use crate::telling::put_line;
use book_base::NoMemory;
use indexmap::IndexSet;
use seq_objects::Kind;
use std::alloc::Global;
use stream_text::{
    NextLine, Phase, StreamError, StreamFault, StreamReader, Taken, Wrong, stream_refusal,
};
use watch_core::Event;

/// An object whose calls have no legal order, and the lines of the first and the last event of
/// which one is the first with which there is none.
#[derive(Clone, Copy)]
pub struct Finding {
    pub object: usize,
    pub first: u64,
    pub last: u64,
}

/// How far a stream is read: its objects, the number of the line that was read last, and of the
/// last one up to which all is said to be legal, the numbers of the objects of which it was said
/// that their calls aren't decided, whether there are some, and what is to be written.
#[derive(Drop)]
pub struct Watching {
    alloc: Global,
    settings: Settings,
    reader: StreamReader,
    objects: Vec<Object>,
    number: u64,
    said: u64,
    unsure: IndexSet<usize>,
    is_unsure: bool,
    pub out: Vec<u8>,
}

impl Watching {
    pub fn new(alloc: Global, settings: Settings) -> Watching
        ensures holds { (said : Said) → said.names ≡ [] → said.events ≡ []
            → Holds settings result [] TitleDue said [] }
        ensures out { result.out.items ≡ [] }
    {
        Watching {
            alloc,
            settings,
            reader: StreamReader::new(alloc),
            objects: Vec::new(alloc),
            number: 0,
            said: 0,
            unsure: IndexSet::new(alloc),
            is_unsure: false,
            out: Vec::new(alloc),
        }
    }

    /// Takes what comes next of a source, and answers how the watch ends if it ends there.
    pub fn step(&mut self, next: NextLine, line: &[u8]) -> Option<Ending>
        // Where the watch goes on, a line came, and more may be told.
        ensures goes_on { IfNone result ((asked : Settings) (lines : List (List ℕ))
            (due : Due) (said : Said)
            (output : List OutputLine) → Holds asked self.old lines due said output
            → (next ≡ next_lines.Line → IsWholeLine line.now) → (next ≡ next_lines.Line)
            × ((due_after : Due) × (said_after : Said) × (more : List OutputLine)
            × (self.new.out.items ≡ self.old.out.items ++ output_text more)
            × Holds asked self.new (lines ++ line.now ∷ []) due_after said_after (output ++ more)
            × (IsPunctual asked said output → IsPunctual asked said_after (output ++ more)))) }
        // Where it ends, the output says so, unless memory is lacking.
        ensures ends { IfSome result (λ ending. (asked : Settings) (lines : List (List ℕ))
            (due : Due) (said : Said)
            (output : List OutputLine) → Holds asked self.old lines due said output
            → (next ≡ next_lines.Line → IsWholeLine line.now) → ending ≢ endings.NoMemory
            → (read : List (List ℕ)) × (more : List OutputLine)
            × (rest : List ℕ) × HasCome lines next line.now ending read
            × (self.new.out.items ≡ self.old.out.items ++ (output_text more ++ rest))
            × IsOutput asked read (output ++ more)
            × EndsAt read next line.now (output ++ more) rest ending) }
    {
        match next {
            NextLine::Line => self.step_line(line),
            _ => Some(self.end(next)),
        }
    }

    // Takes a line, and answers how the watch ends if it ends there.
    fn step_line(&mut self, line: &[u8]) -> Option<Ending>
        ensures goes_on { IfNone result ((asked : Settings) (lines : List (List ℕ))
            (due : Due) (said : Said)
            (output : List OutputLine) → Holds asked self.old lines due said output
            → IsWholeLine line.now
            → (due_after : Due) × (said_after : Said) × (more : List OutputLine)
            × (self.new.out.items ≡ self.old.out.items ++ output_text more)
            × Holds asked self.new (lines ++ line.now ∷ []) due_after said_after (output ++ more)
            × (IsPunctual asked said output → IsPunctual asked said_after (output ++ more))) }
        ensures ends { IfSome result (λ ending. (asked : Settings) (lines : List (List ℕ))
            (due : Due) (said : Said)
            (output : List OutputLine) → Holds asked self.old lines due said output
            → IsWholeLine line.now → ending ≢ endings.NoMemory
            → (read : List (List ℕ)) × (more : List OutputLine)
            × (rest : List ℕ) × HasCome lines next_lines.Line line.now ending read
            × (self.new.out.items ≡ self.old.out.items ++ (output_text more ++ rest))
            × IsOutput asked read (output ++ more)
            × EndsAt read next_lines.Line line.now (output ++ more) rest ending) }
    {
        match self.take(line) {
            Ok(false) => None,
            Ok(true) => Some(Ending::Illegal),
            Err(StreamError::NoMemory) => Some(Ending::NoMemory),
            Err(StreamError::Wrong(wrong)) => Some(self.refuse(wrong)),
        }
    }

    // Ends where no line comes next.
    fn end(&mut self, next: NextLine) -> Ending
        ensures ends { (asked : Settings) (lines : List (List ℕ)) (due : Due) (said : Said)
            (output : List OutputLine) → Holds asked self.old lines due said output
            → next ≢ next_lines.Line → result ≢ endings.NoMemory → (line : List ℕ)
            → (more : List OutputLine) × (rest : List ℕ)
            × (self.new.out.items ≡ self.old.out.items ++ (output_text more ++ rest))
            × IsOutput asked lines (output ++ more)
            × EndsAt lines next line (output ++ more) rest result }
    {
        match self.wrong_end(next) {
            Some(wrong) => self.refuse(wrong),
            None => self.finish(),
        }
    }

    // What is wrong where no line comes next.
    fn wrong_end(&self, next: NextLine) -> Option<Wrong>
        ensures wrong { IfSome result (λ wrong. (due : Due) (line : List ℕ)
            → next ≢ next_lines.Line → HasRead self.now.reader due
            → IsWrongNext due next line wrong) }
        ensures right { IfNone result (next ≢ next_lines.Line → (next ≡ next_lines.End)
            × ((due : Due) (said : Said) → HasRead self.now.reader due → SaysSoFar due said
            → Says due said)) }
    {
        match next {
            NextLine::Line => None,
            NextLine::End => self.wrong_stop(),
            NextLine::Cut => Some(self.wrong_rest(Wrong::Cut)),
            NextLine::Long => Some(self.wrong_rest(Wrong::Long)),
        }
    }

    // What is wrong where the text ends.
    fn wrong_stop(&self) -> Option<Wrong>
        ensures wrong { IfSome result (λ wrong. (due : Due) (line : List ℕ)
            → HasRead self.now.reader due → IsWrongNext due next_lines.End line wrong) }
        ensures right { IfNone result ((due : Due) (said : Said) → HasRead self.now.reader due
            → SaysSoFar due said → Says due said) }
    {
        match self.reader.phase {
            Phase::Title => Some(Wrong::Cut),
            Phase::Object => Some(Wrong::Cut),
            Phase::Events(_) => None,
            Phase::Ended(_) => None,
        }
    }

    // What is wrong with bytes of no line, unless they follow the end.
    fn wrong_rest(&self, wrong: Wrong) -> Wrong
        ensures cut { (due : Due) (line : List ℕ) → wrong ≡ wrongs.Cut
            → HasRead self.now.reader due → IsWrongNext due next_lines.Cut line result }
        ensures long { (due : Due) (line : List ℕ) → wrong ≡ wrongs.Long
            → HasRead self.now.reader due → IsWrongNext due next_lines.Long line result }
    {
        match self.reader.phase {
            Phase::Ended(_) => Wrong::Rest,
            Phase::Title => wrong,
            Phase::Object => wrong,
            Phase::Events(_) => wrong,
        }
    }

    // Takes a line, and answers whether it is said then that an object is illegal.
    fn take(&mut self, line: &[u8]) -> Result<bool, StreamError>
        ensures goes_on { IfOk result (λ over. over ≡ false → (asked : Settings)
            (lines : List (List ℕ)) (due : Due) (said : Said) (output : List OutputLine)
            → Holds asked self.old lines due said output
            → IsWholeLine line.now
            → (after : Due) × (now : Said) × (more : List OutputLine)
            × (self.new.out.items ≡ self.old.out.items ++ output_text more)
            × Holds asked self.new (lines ++ line.now ∷ []) after now (output ++ more)
            × (IsPunctual asked said output → IsPunctual asked now (output ++ more))) }
        ensures over { IfOk result (λ over. over ≡ true → (asked : Settings) (lines : List (List ℕ))
            (due : Due) (said : Said)
            (output : List OutputLine) → Holds asked self.old lines due said output
            → IsWholeLine line.now
            → Closes asked self.old self.new (lines ++ line.now ∷ []) output) }
        ensures wrong { IfErr result (λ error. (what : Wrong) → error ≡ errors.Wrong what
            → (asked : Settings) (lines : List (List ℕ)) (due : Due) (said : Said)
            (output : List OutputLine) → Holds asked self.old lines due said output
            → IsWholeLine line.now
            → Fails due line.now what × Holds asked self.new lines due said output
            × (self.new.out ≡ self.old.out)) }
    {
        match self.read(line)? {
            Some(object) => Ok(self.tell(object)?),
            None => Ok(false),
        }
    }

    // Reads a line, and gives its event to its object, whose number is the answer.
    fn read(&mut self, line: &[u8]) -> Result<Option<usize>, StreamError>
        ensures taken { IfOk result (λ object. (asked : Settings) (lines : List (List ℕ))
            (due : Due) (said : Said)
            (output : List OutputLine) → Holds asked self.old lines due said output
            → IsWholeLine line.now
            → (after : Due) × (now : Said)
            × Holds asked self.new (lines ++ line.now ∷ []) after now output
            × IfSome object (λ object. (after ≡ EventDue now)
            × (IsPunctual asked said output → IsPunctualBut asked now output object))
            × IfNone object (IsPunctual asked said output → IsPunctual asked now output)) }
        ensures wrong { IfErr result (λ error. (what : Wrong) → error ≡ errors.Wrong what
            → (asked : Settings) (lines : List (List ℕ)) (due : Due) (said : Said)
            (output : List OutputLine) → Holds asked self.old lines due said output
            → IsWholeLine line.now
            → Fails due line.now what × Holds asked self.new lines due said output
            × (self.new.out ≡ self.old.out)) }
        ensures out { self.new.out ≡ self.old.out }
    {
        let taken = self.reader.take(line)?;
        let Some(number) = self.number.checked_add(1) else {
            return Err(StreamError::NoMemory);
        };
        self.number = number;
        match taken {
            Taken::Event { object, event } => {
                self.receive(object, event)?;
                Ok(Some(object))
            }
            Taken::Head => Ok(None),
            Taken::End => Ok(None),
        }
    }

    // An object takes an event of the line that was read last.
    fn receive(&mut self, object: usize, event: Event) -> Result<(), NoMemory>
        ensures objects { OnOk result ((asked : Settings) (said : Said) (names : List (List ℕ))
            → self.old.settings ≡ asked → self.old.reader.phase ≡ phases.Events said.kind
            → length self.old.objects.items ≡ length said.names → AreNamed said
            → AreWatched asked self.old.objects.items said
            → self.old.number ≡ head_lines + 1 + length said.events → IsNext said names object
            → (length self.new.objects.items ≡ length names)
            × AreWatched asked self.new.objects.items
            (with_event said names object (event_of event))) }
        ensures same { self.new ≡ record self.old { objects = self.new.objects } }
    {
        self.make_known(object)?;
        match self.objects.get_mut(object) {
            Some(one) => one.take(event, self.number),
            None => Err(NoMemory),
        }
    }

    // Adds an object where the next number is new.
    fn make_known(&mut self, object: usize) -> Result<(), NoMemory>
        ensures objects { OnOk result ((asked : Settings) (said : Said) (names : List (List ℕ))
            → self.old.settings ≡ asked → self.old.reader.phase ≡ phases.Events said.kind
            → length self.old.objects.items ≡ length said.names → AreNamed said
            → AreWatched asked self.old.objects.items said → IsNext said names object
            → (length self.new.objects.items ≡ length names)
            × AreWatched asked self.new.objects.items said) }
        ensures same { self.new ≡ record self.old { objects = self.new.objects } }
    {
        if object == self.objects.len() {
            self.add()
        } else {
            Ok(())
        }
    }

    fn add(&mut self) -> Result<(), NoMemory>
        ensures objects { OnOk result ((asked : Settings) (said : Said)
            → self.old.settings ≡ asked → self.old.reader.phase ≡ phases.Events said.kind
            → length self.old.objects.items ≡ length said.names → AreNamed said
            → AreWatched asked self.old.objects.items said
            → (length self.new.objects.items ≡ length said.names + 1)
            × AreWatched asked self.new.objects.items said) }
        ensures same { self.new ≡ record self.old { objects = self.new.objects } }
    {
        if let Phase::Events(kind) = self.reader.phase {
            let object = Object::new(self.alloc, kind, self.settings)?;
            self.objects.push(object)?;
        }
        Ok(())
    }

    // Says what is to be said now, after an event of an object, and answers whether it is said that
    // an object is illegal.
    fn tell(&mut self, object: usize) -> Result<bool, NoMemory>
        ensures goes_on { IfOk result (λ over. over ≡ false → (asked : Settings)
            (lines : List (List ℕ)) (said : Said) (output : List OutputLine)
            → Holds asked self.old lines (EventDue said) said output
            → Tells asked self.old self.new lines (EventDue said) said output
            (λ after. IsPunctualBut asked said output object → IsPunctual asked said after)) }
        ensures over { IfOk result (λ over. over ≡ true → (asked : Settings)
            (lines : List (List ℕ)) (said : Said) (output : List OutputLine)
            → Holds asked self.old lines (EventDue said) said output
            → Closes asked self.old self.new lines output) }
    {
        if self.say(object)? {
            return Ok(true);
        }
        if self.is_due() {
            return Ok(self.report()?);
        }
        Ok(false)
    }

    // Whether it is to be said now whether all is legal so far.
    fn is_due(&self) -> bool
        ensures { result ≡ false → IsDue self.now.settings self.now.number → ⊥ }
    {
        match self.settings.every {
            Some(every) => every > 0 && self.number % every == 0,
            None => false,
        }
    }

    // Says what is to be said at once of an object. Where it is illegal, all events of the others
    // are taken into account first, so that the first line is named.
    fn say(&mut self, object: usize) -> Result<bool, NoMemory>
        ensures goes_on { IfOk result (λ over. over ≡ false → (asked : Settings)
            (lines : List (List ℕ)) (due : Due) (said : Said) (output : List OutputLine)
            → Holds asked self.old lines due said output
            → Says due said → Tells asked self.old self.new lines due said output
            (λ after. object < length said.names → IsTimely asked said after object)) }
        ensures over { IfOk result (λ over. over ≡ true → (asked : Settings) (lines : List (List ℕ))
            (due : Due) (said : Said)
            (output : List OutputLine) → Holds asked self.old lines due said output
            → Says due said → Closes asked self.old self.new lines output) }
    {
        let Some(one) = self.objects.get(object) else {
            return Ok(false);
        };
        if one.is_legal_before() {
            return Ok(false);
        }
        match self.judge(object)? {
            Some(_) => Ok(self.settle()?),
            None => Ok(false),
        }
    }

    // Takes all events into account, says of which objects it isn't decided, and where some are
    // illegal, which line is the first one.
    fn settle(&mut self) -> Result<bool, NoMemory>
        ensures goes_on { IfOk result (λ over. over ≡ false → (asked : Settings)
            (lines : List (List ℕ)) (due : Due) (said : Said) (output : List OutputLine)
            → Holds asked self.old lines due said output
            → Tells asked self.old self.new lines due said output (AreSettled said)) }
        ensures over { IfOk result (λ over. over ≡ true → (asked : Settings) (lines : List (List ℕ))
            (due : Due) (said : Said)
            (output : List OutputLine) → Holds asked self.old lines due said output
            → Closes asked self.old self.new lines output) }
    {
        let mut found: Option<Finding> = None;
        for object in 0..self.objects.len() {
            let one = self.judge(object)?;
            found = earlier(found, one);
        }
        match found {
            Some(one) => {
                self.tell_illegal(one)?;
                Ok(true)
            }
            None => Ok(false),
        }
    }

    // Takes all events of an object into account, says whether it isn't decided, and answers from
    // which line on it is illegal.
    fn judge(&mut self, object: usize) -> Result<Option<Finding>, NoMemory>
        ensures judged { IfOk result (λ found. (asked : Settings) (lines : List (List ℕ))
            (due : Due) (said : Said)
            (output : List OutputLine) → Holds asked self.old lines due said output
            → Tells asked self.old self.new lines due said output
            (λ after. IfSome found (IsFinding asked said)
            × (object < length said.names → IsSettled said after found object))) }
    {
        match self.standing(object)? {
            Some(Standing::Illegal { first, last }) => Ok(Some(Finding {
                object,
                first,
                last,
            })),
            Some(Standing::Unsure { line }) => {
                self.tell_unsure(object, line)?;
                Ok(None)
            }
            Some(Standing::Legal) => Ok(None),
            None => Ok(None),
        }
    }

    // What is said of all events of an object, where there is one of this number.
    fn standing(&mut self, object: usize) -> Result<Option<Standing>, NoMemory>
        ensures some { IfOk result (λ some. IfSome some (λ standing. (asked : Settings)
            (said : Said) → AreWatched asked self.old.objects.items said
            → StandsAs said.kind asked (events_of object said.events)
            (lines_of object said.events) standing)) }
        ensures none { IfOk result (λ some. IfNone some (length self.old.objects.items ≤ object)) }
        ensures within { IfOk result (λ some. IfSome some
            (λ _. object < length self.old.objects.items)) }
        ensures objects { (asked : Settings) (said : Said)
            → AreWatched asked self.old.objects.items said
            → AreWatched asked self.new.objects.items said }
        ensures size { length self.new.objects.items ≡ length self.old.objects.items }
        ensures same { self.new ≡ record self.old { objects = self.new.objects } }
    {
        match self.objects.get_mut(object) {
            Some(one) => Ok(Some(one.settle()?)),
            None => Ok(None),
        }
    }

    // Says of an object that it isn't decided, where this wasn't said.
    fn tell_unsure(&mut self, object: usize, line: u64) -> Result<(), NoMemory>
        ensures told { OnOk result ((asked : Settings) (lines : List (List ℕ))
            (due : Due) (said : Said)
            (output : List OutputLine) → Holds asked self.old lines due said output
            → object < length said.names
            → StandsAs said.kind asked (events_of object said.events)
            (lines_of object said.events) (standings.Unsure line)
            → Tells asked self.old self.new lines due said output
            (λ after. IsUnsureTold said after object)) }
    {
        if self.unsure.contains(&object) {
            return Ok(());
        }
        self.unsure.insert(object)?;
        self.is_unsure = true;
        let name = self.reader.name(object);
        put_line(&mut self.out, b"unsure", line, line, name)?;
        Ok(())
    }

    fn tell_illegal(&mut self, found: Finding) -> Result<(), NoMemory>
        ensures told { OnOk result ((said : Said) (name : List ℕ) → HasTables self.old.reader said
            → slice_get said.names found.object ≡ Some name → self.new.out.items
            ≡ self.old.out.items ++ text_of (Illegal found.first found.last name)) }
        ensures same { self.new ≡ record self.old { out = self.new.out } }
    {
        let name = self.reader.name(found.object);
        put_line(&mut self.out, b"illegal", found.first, found.last, name)?;
        Ok(())
    }

    // Takes all lines into account, and says whether all is legal.
    fn report(&mut self) -> Result<bool, NoMemory>
        ensures goes_on { IfOk result (λ over. over ≡ false → (asked : Settings)
            (lines : List (List ℕ)) (due : Due) (said : Said) (output : List OutputLine)
            → Holds asked self.old lines due said output
            → Says due said → Tells asked self.old self.new lines due said output
            (λ after. AreSettled said after × (self.new.is_unsure ≡ false
            → Has after (Legal (length lines))))) }
        ensures over { IfOk result (λ over. over ≡ true → (asked : Settings) (lines : List (List ℕ))
            (due : Due) (said : Said)
            (output : List OutputLine) → Holds asked self.old lines due said output
            → Says due said → Closes asked self.old self.new lines output) }
    {
        if self.settle()? {
            return Ok(true);
        }
        self.tell_legal()?;
        Ok(false)
    }

    // Says that all is legal, unless some object is unsure or this is said already.
    fn tell_legal(&mut self) -> Result<(), NoMemory>
        ensures told { OnOk result ((asked : Settings) (lines : List (List ℕ))
            (due : Due) (said : Said)
            (output : List OutputLine) → Holds asked self.old lines due said output
            → Says due said → AreSettled said output
            → Tells asked self.old self.new lines due said output
            (λ after. self.new.is_unsure ≡ false → Has after (Legal (length lines)))) }
    {
        if self.is_unsure {
            return Ok(());
        }
        if self.said == self.number {
            return Ok(());
        }
        put_line(&mut self.out, b"legal", self.number, self.number, &[])?;
        self.said = self.number;
        Ok(())
    }

    // Says what is to be said at the end of the stream.
    fn finish(&mut self) -> Ending
        ensures ends { (asked : Settings) (lines : List (List ℕ)) (due : Due) (said : Said)
            (output : List OutputLine) → Holds asked self.old lines due said output
            → Says due said → result ≢ endings.NoMemory → (line : List ℕ) → (more : List OutputLine)
            × (self.new.out.items ≡ self.old.out.items ++ output_text more)
            × IsOutput asked lines (output ++ more)
            × EndsAt lines next_lines.End line (output ++ more) [] result }
    {
        match self.report() {
            Ok(true) => Ending::Illegal,
            Ok(false) => {
                if self.is_unsure {
                    Ending::Unsure
                } else {
                    Ending::Legal
                }
            }
            Err(NoMemory) => Ending::NoMemory,
        }
    }

    // Says why what comes next is refused, unless the lines before are illegal.
    fn refuse(&mut self, wrong: Wrong) -> Ending
        ensures ends { (asked : Settings) (lines : List (List ℕ)) (due : Due) (said : Said)
            (output : List OutputLine) → Holds asked self.old lines due said output
            → result ≢ endings.NoMemory → (next : NextLine) (line : List ℕ)
            → IsWrongNext due next line wrong → (more : List OutputLine) × (rest : List ℕ)
            × (self.new.out.items ≡ self.old.out.items ++ (output_text more ++ rest))
            × IsOutput asked lines (output ++ more)
            × EndsAt lines next line (output ++ more) rest result }
    {
        match self.settle() {
            Ok(true) => Ending::Illegal,
            Ok(false) => match self.put_refusal(wrong) {
                Ok(()) => Ending::Refused,
                Err(NoMemory) => Ending::NoMemory,
            },
            Err(NoMemory) => Ending::NoMemory,
        }
    }

    fn put_refusal(&mut self, wrong: Wrong) -> Result<(), NoMemory>
        ensures { OnOk result (self.new.out.items ≡ self.old.out.items
            ++ stream_refusal_text (record { line = self.old.number + 1; wrong = wrong })) }
    {
        let Some(line) = self.number.checked_add(1) else {
            return Err(NoMemory);
        };
        let text = stream_refusal(self.alloc, StreamFault { line, wrong })?;
        self.out.extend_from_slice(&text)?;
        Ok(())
    }
}

// What is found of some objects and of others.
fn earlier(found: Option<Finding>, other: Option<Finding>) -> Option<Finding>
    ensures finding { (asked : Settings) (said : Said) → IfSome found (IsFinding asked said)
        → IfSome other (IsFinding asked said) → IfSome result (IsFinding asked said) }
    ensures first { IsBefore result found × IsBefore result other }
{
    match (found, other) {
        (Some(one), Some(two)) => Some(joined(one, two)),
        (Some(one), None) | (None, Some(one)) => Some(one),
        (None, None) => None,
    }
}

// What two findings say together: the calls of the object with the lesser last line have no legal
// order up to this line, and the first line with which those of some object have none isn't before
// the lesser first one. Of equal last lines the first finding's object is named.
fn joined(one: Finding, other: Finding) -> Finding
    ensures finding { (asked : Settings) (said : Said) → IsFinding asked said one
        → IsFinding asked said other → IsFinding asked said result }
    ensures first { (result.first ≤ one.first) × (result.first ≤ other.first) }
{
    let first = one.first.min(other.first);
    if one.last <= other.last {
        Finding { first, ..one }
    } else {
        Finding { first, ..other }
    }
}
