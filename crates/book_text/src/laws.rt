//! Laws of the texts of books. Each is the contract of a function with nothing in it.

ghost use Rattle.std.specs.Prelude.{◌≡◌, ◌↔◌, ℕ, List};
ghost use Rattle.book_base.specs.Book.{Page};
ghost use Rattle.book_base.specs.declared.fault.TextFault.{TextFault};
ghost use Rattle.seq_objects.specs.declared.kind.Kind.{Kind};
ghost use Rattle.text_fields.specs.declared.version.Version.{Version};
ghost use Rattle.book_text.specs.BookRules.{book_rules, IsBookText, IsFirstBookFault};
ghost use Rattle.book_text.specs.Grammar.{IsWrittenText};
ghost use Rattle.text_fields.specs.Faults.{AreSharp};
ghost use Rattle.text_fields.specs.Lines.{IsSolid};
ghost use Rattle.text_fields.specs.Head.{head_rules};
ghost use Rattle.book_text.specs.CallLines.{call_rules};
ghost use Rattle.book_text.specs.Beginnings.{LeavesTexts};

use text_fields::OpText;

/// Bytes are the text of one book at most, for one kind.
pub fn one_book_per_text()
    ensures { (version : Version) (bytes : List ℕ) (k l : Kind) (a b : List Page)
        → IsBookText version bytes k a → IsBookText version bytes l b → (k ≡ l) × (a ≡ b) }
{}

/// Bytes have one first fault at most.
pub fn one_first_fault()
    ensures { (version : Version) (bytes : List ℕ) (a b : TextFault)
        → IsFirstBookFault version bytes a → IsFirstBookFault version bytes b → a ≡ b }
{}

/// A book's text has no fault.
pub fn no_fault_of_a_text()
    ensures { (version : Version) (bytes : List ℕ) (kind : Kind) (book : List Page)
        (fault : TextFault)
        → IsBookText version bytes kind book → ¬ (IsFirstBookFault version bytes fault) }
{}

/// Bytes are read as a book exactly where they are what is written of it.
pub fn a_text_is_its_books_lines()
    ensures { (version : Version) (bytes : List ℕ) (kind : Kind) (book : List Page)
        → IsWrittenText version bytes kind book ↔ IsBookText version bytes kind book }
{}

/// A first fault is where the bytes stop being the beginning of a book's text: some text begins
/// with the lines before the fault's line, and none begins with these and that line; or that line
/// isn't whole, or bytes follow a whole text.
pub fn first_faults_leave_texts()
    ensures { (version : Version) (bytes : List ℕ) (fault : TextFault)
        → IsFirstBookFault version bytes fault → LeavesTexts version bytes fault }
{}

/// The rules of a head, of the lines of calls and of a whole book are sharp: a right line comes
/// only where a line is due, leads to one state only, fails no test, and can be read back. The
/// rules of a head are sharp for any title that is a word, and those of the lines of calls for the
/// operations of any kind of text (`OpText`).
pub fn rules_are_sharp<T: OpText>()
    ensures head { (version : Version) (title : List ℕ)
        → IsSolid title → AreSharp (head_rules version title) }
    ensures calls { (version : Version) (text : T)
        → AreSharp (call_rules version (T.operations text)) }
    ensures book { (version : Version) → AreSharp (book_rules version) }
{}
