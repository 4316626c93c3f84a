// Lines that can be read and lines that cannot.
use call_lists::{CallLine, Part, Reason, Statement, Stop, read_statement};
use segment::DiskPtr;
use std::alloc::Global;
use std::test::Fail;

// Why a line is not read; none where it is.
fn reason(heap: Global, line: &str) -> Option<Reason> {
    match read_statement(heap, line) {
        Err(Stop::Unread(reason)) => Some(reason),
        _ => None,
    }
}

#[test]
fn bad_words_and_counts_are_told(rt: HostRuntime) {
    let heap = rt.alloc();
    let unknown = ["stop", "Next 0", " # late", "next\t0", "cut 512"];
    for line in unknown {
        assert_eq!(rt; reason(heap, line), Some(Reason::UnknownStatement));
    }
    let missing = [
        "next",
        "start 512 32 -",
        "memory 512",
        "page 0",
        "old 0 0 0 -",
    ];
    for line in missing {
        assert_eq!(rt; reason(heap, line), Some(Reason::MissingField));
    }
    let surplus = ["next 1 2", "pop 1", "books 1", "take 0", "row 0 0 0 - 0 0"];
    for line in surplus {
        assert_eq!(rt; reason(heap, line), Some(Reason::SurplusField));
    }
}

#[test]
fn bad_numbers_are_told(rt: HostRuntime) {
    let heap = rt.alloc();
    let lines = [
        "next x",
        "next -",
        "next +5",
        "next --5",
        "next 9223372036854775808",
        "stabilize -9223372036854775809",
        "fail 18446744073709551616",
        "link -1 0 0 0 - 0",
        "row 256 0 0 - 0",
        "memory 512 0 -",
        "old 0 0 - - 0",
    ];
    for line in lines {
        assert_eq!(rt; reason(heap, line), Some(Reason::NotANumber));
    }
}

#[test]
fn empty_lines_are_passed_over(rt: HostRuntime) {
    for line in ["", "   ", "#", "# next 0"] {
        assert!(rt; matches!(read_statement(rt.alloc(), line), Ok(None)));
    }
}

#[test]
fn numbers_are_read_to_their_ends(rt: HostRuntime) -> Result<(), Fail> {
    match read_statement(rt.alloc(), "  stabilize   -9223372036854775808 ") {
        Ok(Some(Statement::Call(CallLine::Stabilize(lsn)))) => assert_eq!(rt; lsn, i64::MIN),
        _ => return Err(Fail::new("stabilize")),
    }
    match read_statement(rt.alloc(), "fail 18446744073709551615") {
        Ok(Some(Statement::Fail(passes))) => {
            assert_eq!(rt; passes, u64::MAX);
            Ok(())
        },
        _ => Err(Fail::new("fail")),
    }
}

#[test]
fn rows_have_their_fields_in_order(rt: HostRuntime) -> Result<(), Fail> {
    match read_statement(rt.alloc(), "row 255 -3 4 -5 6") {
        Ok(Some(Statement::Part(Part::Row(row)))) => {
            assert_eq!(rt; (row.kind, row.lsn, row.size), (255, -3, 6));
            assert!(rt; matches!(row.pointer, DiskPtr::Blob(4, -5)));
            Ok(())
        }
        _ => Err(Fail::new("row")),
    }
}
