// A call list on standard input, read statement by statement. Beside that of call_lists, since a line that is not UTF-8 ends this one.
use crate::statement::{Statement, read_statement};
use call_lists::Stop;
use std::io::{BufRead, BufReader, Stdin};

#[derive(Drop)]
pub(crate) struct CallList {
    reader: BufReader<Stdin>,
    line: u64,
}

impl CallList {
    pub(crate) fn new(rt: &HostRuntime) -> Result<CallList, Stop> {
        Ok(CallList {
            reader: BufReader::new(rt.alloc(), rt.stdin())?,
            line: 0,
        })
    }

    // The number of the line that was read last.
    pub(crate) fn line(&self) -> u64 {
        self.line
    }

    // The next statement; none at the end of the list. The count is the form of a loop that waits on input.
    pub(crate) fn next_statement(&mut self, rt: &HostRuntime) -> Result<Option<Statement>, Stop> {
        for _ in 0..u64::MAX {
            let mut text = String::new(rt.alloc());
            if self.reader.read_line(&mut text)? == 0 {
                break;
            }
            self.line = self.line.saturating_add(1);
            if let Some(statement) = read_statement(rt.alloc(), text.as_str().trim_end())? {
                return Ok(Some(statement));
            }
        }
        Ok(None)
    }
}
