// The statements of a call list, read from one line each.
ghost use Rattle.std.specs.Prelude.{◌≡◌, ◌≤◌, true, length};
ghost use Rattle.call_lists.specs.Words.{taken};

use crate::fields::{read_number, read_number_or_none};
use crate::parts::{read_info, read_row};
use crate::reason::Reason;
use crate::stop::Stop;
use crate::word::{Word, count_fields};
use segment::{BlobPointer, CacheInfo, LogOffset, Lsn, PageEntry, PageId, SnapshotRow};
use std::alloc::Global;

// What a bottom host is made with.
#[derive(Drop)]
pub struct Setup {
    pub segment_size: u64,
    pub length: u64,
    pub blobs: Vec<BlobPointer>,
}

// A line that is kept for a later call.
#[derive(Clone, Copy)]
pub enum Part {
    Page(PageEntry),
    Row(SnapshotRow),
    Old(CacheInfo),
}

// A call as its own line has it, without what was kept for it.
#[derive(Clone, Copy)]
pub enum CallLine {
    Start {
        segment_size: u64,
        header_len: u64,
        stable_lsn: Option<Lsn>,
        active_segment: Option<LogOffset>,
    },
    Link {
        page: PageId,
        info: CacheInfo,
    },
    Replace {
        page: PageId,
        lsn: Lsn,
        new: CacheInfo,
    },
    Next(Lsn),
    Stabilize(Lsn),
    Pop,
}

#[derive(Drop)]
pub enum Statement {
    Memory(Setup),
    Queue(Setup),
    Fail(u64),
    Part(Part),
    Call(CallLine),
    Take,
    Books,
}

// The fields are read by index: a pattern of the slice wants a branch for other lengths, which never come here.
fn read_setup(heap: Global, fields: &[&str]) -> Result<Setup, Stop>
    requires { 2 ≤ length fields.now }
{
    let segment_size = read_number(fields[0])?;
    let length = read_number(fields[1])?;
    let mut blobs = Vec::new(heap);
    for field in &fields[2..] {
        blobs.push(read_number(field)?)?;
    }
    Ok(Setup {
        segment_size,
        length,
        blobs,
    })
}

fn read_page(fields: &[&str]) -> Result<Statement, Reason>
    requires { length fields.now ≡ 2 }
{
    let first = read_number(fields[0])?;
    let count = read_number(fields[1])?;
    Ok(Statement::Part(Part::Page(PageEntry { first, count })))
}

fn read_start(fields: &[&str]) -> Result<Statement, Reason>
    requires { length fields.now ≡ 4 }
{
    let start = CallLine::Start {
        segment_size: read_number(fields[0])?,
        header_len: read_number(fields[1])?,
        stable_lsn: read_number_or_none(fields[2])?,
        active_segment: read_number_or_none(fields[3])?,
    };
    Ok(Statement::Call(start))
}

fn read_link(fields: &[&str]) -> Result<Statement, Reason>
    requires { length fields.now ≡ 6 }
{
    let page = read_number(fields[0])?;
    let info = read_info(fields[1], fields[2], fields[3], fields[4], fields[5])?;
    Ok(Statement::Call(CallLine::Link { page, info }))
}

fn read_replace(fields: &[&str]) -> Result<Statement, Reason>
    requires { length fields.now ≡ 7 }
{
    let page = read_number(fields[0])?;
    let lsn = read_number(fields[1])?;
    let new = read_info(fields[2], fields[3], fields[4], fields[5], fields[6])?;
    Ok(Statement::Call(CallLine::Replace { page, lsn, new }))
}

fn read_snapshot_row(fields: &[&str]) -> Result<Statement, Reason>
    requires { length fields.now ≡ 5 }
{
    let row = read_row(fields[0], fields[1], fields[2], fields[3], fields[4])?;
    Ok(Statement::Part(Part::Row(row)))
}

fn read_old(fields: &[&str]) -> Result<Statement, Reason>
    requires { length fields.now ≡ 5 }
{
    let info = read_info(fields[0], fields[1], fields[2], fields[3], fields[4])?;
    Ok(Statement::Part(Part::Old(info)))
}

fn worded(heap: Global, word: Word, fields: &[&str]) -> Result<Statement, Stop>
    requires { taken word (length fields.now) ≡ true }
{
    Ok(match word {
        Word::Memory => Statement::Memory(read_setup(heap, fields)?),
        Word::Queue => Statement::Queue(read_setup(heap, fields)?),
        Word::Fail => Statement::Fail(read_number(fields[0])?),
        Word::Page => read_page(fields)?,
        Word::Row => read_snapshot_row(fields)?,
        Word::Start => read_start(fields)?,
        Word::Link => read_link(fields)?,
        Word::Old => read_old(fields)?,
        Word::Replace => read_replace(fields)?,
        Word::Next => Statement::Call(CallLine::Next(read_number(fields[0])?)),
        Word::Stabilize => Statement::Call(CallLine::Stabilize(read_number(fields[0])?)),
        Word::Pop => Statement::Call(CallLine::Pop),
        Word::Take => Statement::Take,
        Word::Books => Statement::Books,
    })
}

// The statement on a line; none where the line is empty or a remark.
pub fn read_statement(heap: Global, line: &str) -> Result<Option<Statement>, Stop> {
    if line.starts_with('#') {
        return Ok(None);
    }
    let fields: Vec<&str> = line
        .split(' ')
        .filter(|field| !field.is_empty())
        .collect(heap)?;
    match fields.as_slice() {
        [] => Ok(None),
        [first, rest @ ..] => {
            let word = first.parse::<Word>()?;
            count_fields(word, rest.len())?;
            Ok(Some(worded(heap, word, rest)?))
        }
    }
}
