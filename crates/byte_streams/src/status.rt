ghost use Rattle.std.specs.Prelude.{◌≡◌};

/// The status that a program ends with.
#[derive(Clone, Copy, Debug, PartialEq, Eq)]
pub enum Status {
    /// The output was written, and nothing was found.
    Fine,
    /// The output was written, and says what was found.
    Found,
    /// The command words name no command.
    Usage,
    /// The input isn't a text of the wanted form, or is too long.
    Refused,
    /// A read failed. Nothing was written.
    ReadFault,
    /// A write failed. A prefix of the output may have been written.
    WriteFault,
    /// Memory was lacking. Nothing was written.
    NoMemory,
}

impl Status {
    ghost use Rattle.byte_streams.specs.Status.{code_of};

    /// The exit code of the status.
    pub fn code(self) -> u8
        ensures { result ≡ code_of self }
    {
        self as u8
    }
}
