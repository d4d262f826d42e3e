//! Laws of the texts of scripts. Each is the contract of a function with nothing in it.

ghost use Rattle.std.specs.Prelude.{◌≡◌, ◌↔◌, ℕ, [], ◌++◌, List};
ghost use Rattle.book_base.specs.declared.fault.TextFault.{TextFault};
ghost use Rattle.text_fields.specs.declared.version.Version.{Version};
ghost use Rattle.book_text.specs.AnyTextBeginnings.{LeavesAt};
ghost use Rattle.client_scripts.specs.Plans.{Plan};
ghost use Rattle.client_scripts.specs.Grammar.{IsWrittenText};
ghost use Rattle.client_scripts.specs.ScriptRules.{IsScriptText, IsFirstScriptFault};

/// Bytes are the text of one script at most.
pub fn one_script_per_text()
    ensures { (version : Version) (bytes : List ℕ) (a b : Plan)
        → IsScriptText version bytes a → IsScriptText version bytes b → a ≡ b }
{}

/// A script has one text at most in each version.
pub fn one_text_per_script()
    ensures { (version : Version) (a b : List ℕ) (plan : Plan)
        → IsScriptText version a plan → IsScriptText version b plan → a ≡ b }
{}

/// Bytes have one first fault at most.
pub fn one_first_fault()
    ensures { (version : Version) (bytes : List ℕ) (a b : TextFault)
        → IsFirstScriptFault version bytes a → IsFirstScriptFault version bytes b → a ≡ b }
{}

/// A script's text has no fault.
pub fn no_fault_of_a_text()
    ensures { (version : Version) (bytes : List ℕ) (plan : Plan) (fault : TextFault)
        → IsScriptText version bytes plan → ¬ (IsFirstScriptFault version bytes fault) }
{}

/// Bytes are read as a script, line by line, exactly where they are what is written of it.
pub fn a_text_is_its_scripts_lines()
    ensures { (version : Version) (bytes : List ℕ) (plan : Plan)
        → IsWrittenText version bytes plan ↔ IsScriptText version bytes plan }
{}

/// No script's text is a proper prefix of another's.
pub fn no_script_text_begins_another()
    ensures { (version : Version) (bytes more : List ℕ) (a b : Plan)
        → IsScriptText version bytes a → IsScriptText version (bytes ++ more) b → more ≡ [] }
{}

/// A first fault is where the bytes stop being the beginning of a script's text: some text begins
/// with the lines before the fault's line, and none begins with these and that line; or that line
/// isn't whole, or bytes follow a whole text.
pub fn first_faults_leave_texts()
    ensures { (version : Version) (bytes : List ℕ) (fault : TextFault)
        → IsFirstScriptFault version bytes fault → LeavesAt (IsScriptText version) bytes fault }
{}
