// The runs of a call list: each puts its host together and then does its statements on it.
use crate::call_list::CallList;
use crate::statement::{Act, Statement};
use crate::transcript::{write_answer, write_books, write_taken};
use call_lists::{Reason, Setup, Stop};
use host::{BlobPointer, FailLayer, TakeRequest};
use memory_host::{HeldBlobs, MemoryHost, QueueHost};
use std::alloc::{AllocError, Global};

// How many fail layers there may be.
const MOST_LAYERS: usize = 4;

fn act<H: TakeRequest + HeldBlobs>(rt: &HostRuntime, host: &mut H, act: Act) -> Result<(), Stop> {
    match act {
        Act::Ask(request) => {
            let answer = host.ask(request);
            write_answer(rt, request, answer)?;
        }
        Act::Take => {
            let taken = host.take_request();
            write_taken(rt, taken)?;
        }
        Act::Books => write_books(rt, host)?,
    }
    Ok(())
}

// Does the statements of one run, from the one that is at hand on. Answers the statement that begins the next run, or none at the
// end of the list.
fn act_on<H: TakeRequest + HeldBlobs + Drop>(
    rt: &HostRuntime,
    list: &mut CallList,
    mut host: H,
    first: Option<Statement>,
) -> Result<Option<Statement>, Stop> {
    let mut statement = first;
    for _ in 0..u64::MAX {
        match statement {
            Some(Statement::Act(what)) => act(rt, &mut host, what)?,
            Some(Statement::Fail(_)) => return Err(Stop::Unread(Reason::FailAfterCall)),
            other => return Ok(other),
        }
        statement = list.next_statement(rt)?;
    }
    Ok(None)
}

// The fail layers of a run, the lowest first, and the statement after them. Books that are asked for meanwhile are written.
fn read_layers<H: HeldBlobs>(
    rt: &HostRuntime,
    list: &mut CallList,
    bottom: &H,
) -> Result<(Vec<u64>, Option<Statement>), Stop> {
    let mut layers = Vec::new(rt.alloc());
    for _ in 0..u64::MAX {
        match list.next_statement(rt)? {
            Some(Statement::Fail(passes)) => {
                if layers.len() >= MOST_LAYERS {
                    return Err(Stop::Unread(Reason::TooManyLayers));
                }
                layers.push(passes)?;
            }
            Some(Statement::Act(Act::Books)) => write_books(rt, bottom)?,
            other => return Ok((layers, other)),
        }
    }
    Ok((layers, None))
}

// Plays one run over a bottom host, and answers the statement that begins the next one.
fn play_run<H: TakeRequest + HeldBlobs + Drop>(
    rt: &HostRuntime,
    list: &mut CallList,
    bottom: H,
) -> Result<Option<Statement>, Stop> {
    let (layers, first) = read_layers(rt, list, &bottom)?;
    // An arm for each height: the piles have types of their own, and rt ci refuses a function that makes a dyn host and hands it out.
    match layers.as_slice() {
        [] => act_on(rt, list, bottom, first),
        [a] => act_on(rt, list, FailLayer::new(*a, bottom), first),
        [a, b] => act_on(
            rt,
            list,
            FailLayer::new(*b, FailLayer::new(*a, bottom)),
            first,
        ),
        [a, b, c] => {
            let below = FailLayer::new(*b, FailLayer::new(*a, bottom));
            act_on(rt, list, FailLayer::new(*c, below), first)
        }
        [a, b, c, d, ..] => {
            let below = FailLayer::new(*b, FailLayer::new(*a, bottom));
            act_on(
                rt,
                list,
                FailLayer::new(*d, FailLayer::new(*c, below)),
                first,
            )
        }
    }
}

// Plays one run over a bottom host that is made as the setup says.
fn play_over<H, F>(
    rt: &HostRuntime,
    list: &mut CallList,
    setup: &Setup,
    make: F,
) -> Result<Option<Statement>, Stop>
where
    H: TakeRequest + HeldBlobs + Drop,
    F: FnOnce(Global, u64, u64, &[BlobPointer]) -> Result<H, AllocError>,
    requires { F.IsAlwaysCallable make }
{
    let blobs = setup.blobs.as_slice();
    let host = make(rt.alloc(), setup.segment_size, setup.length, blobs)?;
    play_run(rt, list, host)
}

// Plays all runs of a list.
pub(crate) fn play(rt: &HostRuntime, list: &mut CallList) -> Result<(), Stop> {
    let mut statement = list.next_statement(rt)?;
    for number in 1..u64::MAX {
        match statement {
            None => return Ok(()),
            Some(Statement::Memory(setup)) => {
                println!(rt; "run {number}")?;
                statement = play_over(rt, list, &setup, MemoryHost::new)?;
            }
            Some(Statement::Queue(setup)) => {
                println!(rt; "run {number}")?;
                statement = play_over(rt, list, &setup, QueueHost::new)?;
            }
            Some(_) => return Err(Stop::Unread(Reason::NoRunYet)),
        }
    }
    Ok(())
}
