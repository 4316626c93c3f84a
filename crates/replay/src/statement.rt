// The statements of a call list, read from one line each.
use call_lists::{Reason, Setup, Stop};
use host::Request;
use std::alloc::Global;
use std::num::ParseIntError;
use std::str::FromStr;

#[derive(Drop)]
pub(crate) enum Statement {
    Memory(Setup),
    Queue(Setup),
    Fail(u64),
    Act(Act),
}

// What is done with the host of a run.
#[derive(Clone, Copy)]
pub(crate) enum Act {
    Ask(Request),
    Take,
    Books,
}

// A number in decimal digits; a sign may stand in front.
fn read_number<N: FromStr<Err = ParseIntError>>(field: &str) -> Result<N, Reason> {
    field.parse::<N>().map_err(|_| Reason::NotANumber)
}

// The one field that a statement has.
fn only<'a>(fields: &[&'a str]) -> Result<&'a str, Reason> {
    match fields {
        [] => Err(Reason::MissingField),
        [field] => Ok(*field),
        _ => Err(Reason::SurplusField),
    }
}

fn read_setup(heap: Global, fields: &[&str]) -> Result<Setup, Stop> {
    let [segment_size, length, rest @ ..] = fields else {
        return Err(Stop::Unread(Reason::MissingField));
    };
    let segment_size = read_number(segment_size)?;
    let length = read_number(length)?;
    let mut blobs = Vec::new(heap);
    for field in rest {
        blobs.push(read_number(field)?)?;
    }
    Ok(Setup {
        segment_size,
        length,
        blobs,
    })
}

fn asked(request: Request) -> Statement {
    Statement::Act(Act::Ask(request))
}

// A statement without fields.
fn bare(fields: &[&str], act: Act) -> Result<Statement, Stop> {
    if fields.is_empty() {
        Ok(Statement::Act(act))
    } else {
        Err(Stop::Unread(Reason::SurplusField))
    }
}

fn worded(heap: Global, word: &str, fields: &[&str]) -> Result<Statement, Stop> {
    match word {
        "memory" => Ok(Statement::Memory(read_setup(heap, fields)?)),
        "queue" => Ok(Statement::Queue(read_setup(heap, fields)?)),
        "fail" => Ok(Statement::Fail(read_number(only(fields)?)?)),
        "cut" => Ok(asked(Request::Cut(read_number(only(fields)?)?))),
        "fill" => Ok(asked(Request::Fill(read_number(only(fields)?)?))),
        "remove" => Ok(asked(Request::Remove(read_number(only(fields)?)?))),
        "take" => bare(fields, Act::Take),
        "books" => bare(fields, Act::Books),
        _ => Err(Stop::Unread(Reason::UnknownStatement)),
    }
}

// The statement on a line; none where the line is empty or a comment.
pub(crate) fn read_statement(heap: Global, line: &str) -> Result<Option<Statement>, Stop> {
    if line.starts_with('#') {
        return Ok(None);
    }
    let fields: Vec<&str> = line
        .split(' ')
        .filter(|field| !field.is_empty())
        .collect(heap)?;
    match fields.as_slice() {
        [] => Ok(None),
        [word, rest @ ..] => Ok(Some(worded(heap, word, rest)?)),
    }
}
