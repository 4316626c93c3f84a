// Why a line is not played.
use std::fmt;

/// Why a line cannot be read, or cannot be done where it stands.
#[derive(Clone, Copy, PartialEq, Eq, Debug)]
pub enum Reason {
    NotText,
    UnknownStatement,
    MissingField,
    SurplusField,
    NotANumber,
    NoRunYet,
    FailAfterCall,
    TooManyLayers,
}

impl fmt::Display for Reason {
    fn fmt<W: fmt::Write>(&self, f: &mut fmt::Formatter<W>) -> fmt::Result {
        f.write_str(match self {
            Reason::NotText => "not text",
            Reason::UnknownStatement => "unknown statement",
            Reason::MissingField => "missing field",
            Reason::SurplusField => "surplus field",
            Reason::NotANumber => "not a number",
            Reason::NoRunYet => "no run yet",
            Reason::FailAfterCall => "fail after a call",
            Reason::TooManyLayers => "more than 4 fail layers",
        })
    }
}
