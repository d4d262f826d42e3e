//! How a watch ends.

ghost use Rattle.std.specs.Prelude.{◌≡◌, ◌≢◌, false};
ghost use Rattle.watch.specs.Ending.{ending_code};
ghost use Rattle.watch.specs.declared.ending.Ending.TheVariants as endings;

use byte_streams::Status;

/// The code that the program ends with where it wasn't decided whether the calls have legal orders.
const UNSURE: u8 = 8;

/// How a watch ends.
#[derive(Clone, Copy, Debug, PartialEq, Eq)]
pub enum Ending {
    /// The stream ends, and is legal.
    Legal,
    /// The stream ends, and of some object it isn't decided whether its calls have a legal order.
    Unsure,
    /// The calls of some object have no legal order.
    Illegal,
    /// A line is wrong.
    Refused,
    /// A read failed.
    ReadFault,
    /// A write failed. A prefix of the output may have been written.
    WriteFault,
    /// Memory was lacking.
    NoMemory,
}

impl Ending {
    /// The code that the program ends with.
    pub fn code(self) -> u8
        ensures { result ≡ ending_code self }
    {
        match self {
            Ending::Legal => Status::Fine.code(),
            Ending::Unsure => UNSURE,
            Ending::Illegal => Status::Found.code(),
            Ending::Refused => Status::Refused.code(),
            Ending::ReadFault => Status::ReadFault.code(),
            Ending::WriteFault => Status::WriteFault.code(),
            Ending::NoMemory => Status::NoMemory.code(),
        }
    }

    /// Whether memory was lacking.
    pub fn is_no_memory(self) -> bool
        ensures { result ≡ false → self ≢ endings.NoMemory }
    {
        match self {
            Ending::NoMemory => true,
            Ending::Legal => false,
            Ending::Unsure => false,
            Ending::Illegal => false,
            Ending::Refused => false,
            Ending::ReadFault => false,
            Ending::WriteFault => false,
        }
    }
}
