// What a host is asked, and how it refuses.
ghost use Rattle.std.specs.Prelude.{◌≡◌, Some};
ghost use Rattle.host.specs.Meaning.{code_of, layer_of, refusal};
ghost use Rattle.host.specs.Texts.{text_of};

use std::fmt;

/// A place in the log file.
pub type LogOffset = u64;

/// The name of a blob.
pub type BlobPointer = i64;

/// What a host is asked.
#[derive(Clone, Copy, PartialEq, Eq, Debug)]
pub enum Request {
    Cut(LogOffset),
    Fill(LogOffset),
    Remove(BlobPointer),
}

// An enum, and not a request beside a code and a layer: a rule of the project.
/// A refusal whole: what was asked, with its place, the code, and how many layers stand above the one that refused.
#[derive(Clone, Copy, PartialEq, Eq, Debug)]
pub enum HostFault {
    Cut {
        offset: LogOffset,
        code: u16,
        layer: u8,
    },
    Fill {
        offset: LogOffset,
        code: u16,
        layer: u8,
    },
    Remove {
        blob: BlobPointer,
        code: u16,
        layer: u8,
    },
}

impl Request {
    /// The fault of one that refuses this request, with no layer above it.
    pub fn refused(self, code: u16) -> HostFault
        ensures { result ≡ refusal self code 0 }
    {
        match self {
            Request::Cut(offset) => HostFault::Cut {
                offset,
                code,
                layer: 0,
            },
            Request::Fill(offset) => HostFault::Fill {
                offset,
                code,
                layer: 0,
            },
            Request::Remove(blob) => HostFault::Remove {
                blob,
                code,
                layer: 0,
            },
        }
    }
}

impl fmt::Display for Request {
    ghost output = { λ q. Some (text_of q) };

    /// As a call list writes it.
    fn fmt<W: fmt::Write>(&self, f: &mut fmt::Formatter<W>) -> fmt::Result {
        match self {
            Request::Cut(offset) => write!(f, "cut {offset}"),
            Request::Fill(offset) => write!(f, "fill {offset}"),
            Request::Remove(blob) => write!(f, "remove {blob}"),
        }
    }
}

impl HostFault {
    /// The code of the layer or the host that refused.
    pub fn code(&self) -> u16
        ensures { result ≡ code_of self.now }
    {
        match self {
            HostFault::Cut { code, .. }
            | HostFault::Fill { code, .. }
            | HostFault::Remove { code, .. } => *code,
        }
    }

    /// How many layers stand above the one that refused.
    pub fn layer(&self) -> u8
        ensures { result ≡ layer_of self.now }
    {
        match self {
            HostFault::Cut { layer, .. }
            | HostFault::Fill { layer, .. }
            | HostFault::Remove { layer, .. } => *layer,
        }
    }
}
