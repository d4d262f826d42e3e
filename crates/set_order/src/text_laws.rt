//! Laws of the texts of set books. Each is the contract of a function with nothing in it.

ghost use Rattle.std.specs.Prelude.{◌≡◌, ◌↔◌, ℕ, [], ◌++◌, List};
ghost use Rattle.book_base.specs.Book.{Page};
ghost use Rattle.book_base.specs.declared.fault.TextFault.{TextFault};
ghost use Rattle.book_text.specs.AnyTextBeginnings.{LeavesAt};
ghost use Rattle.set_order.specs.Grammar.{IsWrittenText};
ghost use Rattle.set_order.specs.SetBookRules.{IsSetBookText, IsFirstSetBookFault};

/// Bytes are the text of one set book at most.
pub fn one_set_book_per_text()
    ensures { (bytes : List ℕ) (a b : List Page)
        → IsSetBookText bytes a → IsSetBookText bytes b → a ≡ b }
{}

/// A set book has one text at most.
pub fn one_text_per_set_book()
    ensures { (a b : List ℕ) (book : List Page)
        → IsSetBookText a book → IsSetBookText b book → a ≡ b }
{}

/// Bytes have one first fault at most.
pub fn one_first_fault()
    ensures { (bytes : List ℕ) (a b : TextFault)
        → IsFirstSetBookFault bytes a → IsFirstSetBookFault bytes b → a ≡ b }
{}

/// A set book's text has no fault.
pub fn no_fault_of_a_text()
    ensures { (bytes : List ℕ) (book : List Page) (fault : TextFault)
        → IsSetBookText bytes book → ¬ (IsFirstSetBookFault bytes fault) }
{}

/// Bytes are read as a set book, line by line, exactly where they are what is written of it.
pub fn a_text_is_its_set_books_lines()
    ensures { (bytes : List ℕ) (book : List Page)
        → IsWrittenText bytes book ↔ IsSetBookText bytes book }
{}

/// No set book's text is a proper prefix of another's.
pub fn no_set_book_text_begins_another()
    ensures { (bytes more : List ℕ) (a b : List Page)
        → IsSetBookText bytes a → IsSetBookText (bytes ++ more) b → more ≡ [] }
{}

/// A first fault is where the bytes stop being the beginning of a set book's text: some text begins
/// with the lines before the fault's line, and none begins with these and that line; or that line
/// isn't whole, or bytes follow a whole text.
pub fn first_faults_leave_texts()
    ensures { (bytes : List ℕ) (fault : TextFault)
        → IsFirstSetBookFault bytes fault → LeavesAt IsSetBookText bytes fault }
{}
