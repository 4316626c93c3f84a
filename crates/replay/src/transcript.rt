// The lines of a transcript.
use host::{HostFault, Request};
use memory_host::{Blob, HeldBlobs};
use std::io;

pub(crate) fn write_answer(
    rt: &HostRuntime,
    request: Request,
    answer: Result<(), HostFault>,
) -> io::Result<()> {
    match answer {
        Ok(()) => println!(rt; "asked {request}: granted"),
        Err(fault) => {
            let (code, layer) = (fault.code(), fault.layer());
            println!(rt; "asked {request}: refused code {code} layer {layer}")
        }
    }
}

pub(crate) fn write_taken(rt: &HostRuntime, taken: Option<Request>) -> io::Result<()> {
    match taken {
        None => println!(rt; "take: none"),
        Some(request) => println!(rt; "take: {request}"),
    }
}

fn write_blobs(rt: &HostRuntime, blobs: &[Blob]) -> io::Result<()> {
    print!(rt; "blobs")?;
    for blob in blobs {
        let pointer = blob.0;
        print!(rt; " {pointer}")?;
    }
    println!(rt; "")
}

pub(crate) fn write_books<H: HeldBlobs>(rt: &HostRuntime, host: &H) -> io::Result<()> {
    let length = host.length();
    println!(rt; "books")?;
    println!(rt; "started no")?;
    println!(rt; "length {length}")?;
    write_blobs(rt, host.held_blobs())?;
    println!(rt; "end")
}
