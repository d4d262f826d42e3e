//! Laws of the lines of streams.

ghost use Rattle.stream_text.specs.Laws.{RightLinesFailNoTest, LinesSayOneThing};

/// What the lines of a stream say is said in one way, and where lines say something, none of them
/// is wrong.
pub fn lines_say_one_thing()
    // A line that is right fails no test.
    ensures apart { RightLinesFailNoTest }
    // The lines of a beginning of a stream say one thing.
    ensures one { LinesSayOneThing }
{}
