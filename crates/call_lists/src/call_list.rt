// A call list on standard input, read statement by statement.
use crate::reason::Reason;
use crate::statement::{Statement, read_statement};
use crate::stop::Stop;
use std::alloc::Global;
use std::io::{BufRead, BufReader, Stdin};
use std::str::from_utf8;

#[derive(Drop)]
pub struct CallList {
    heap: Global,
    reader: BufReader<Stdin>,
    bytes: Vec<u8>,
    line: u64,
}

// The text of a line, without its end.
fn text_of(bytes: &[u8]) -> Result<&str, Reason> {
    let line = match bytes {
        [line @ .., b'\n'] => line,
        _ => bytes,
    };
    from_utf8(line).map_err(|_| Reason::NotText)
}

impl CallList {
    pub fn new(heap: Global, input: Stdin) -> Result<CallList, Stop> {
        Ok(CallList {
            heap,
            reader: BufReader::new(heap, input)?,
            bytes: Vec::new(heap),
            line: 0,
        })
    }

    // The number of the line that was read last.
    pub fn line(&self) -> u64 {
        self.line
    }

    // The next statement; none at the end of the list. The count is the form of a loop that waits on input.
    pub fn next_statement(&mut self) -> Result<Option<Statement>, Stop> {
        for _ in 0..u64::MAX {
            self.bytes.clear();
            if self.reader.read_until(b'\n', &mut self.bytes)? == 0 {
                break;
            }
            self.line = self.line.saturating_add(1);
            let text = text_of(self.bytes.as_slice())?;
            if let Some(statement) = read_statement(self.heap, text)? {
                return Ok(Some(statement));
            }
        }
        Ok(None)
    }
}
