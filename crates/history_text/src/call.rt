/// The answer of a call of a log: its line, its moment, and the reply as it is written.
#[derive(Clone, Copy, Debug)]
pub struct LogAnswer<'a> {
    pub line: u64,
    pub returned: u64,
    pub value: Option<&'a [u8]>,
}

/// A call of a log, its words as they are written, with the line and the moment of its invocation.
/// Its arguments are the value, or the items of the list `arguments` where the log has one.
#[derive(Clone, Copy, Debug)]
pub struct LogCall<'a> {
    pub process: Option<&'a [u8]>,
    pub key: Option<&'a [u8]>,
    pub operation: &'a [u8],
    pub value: Option<&'a [u8]>,
    pub arguments: Option<&'a [u8]>,
    pub line: u64,
    pub invoked: u64,
    pub answer: Option<LogAnswer<'a>>,
}
