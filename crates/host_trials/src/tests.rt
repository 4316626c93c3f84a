// Hosts and piles of fail layers over them, on examples.
use host::{FailLayer, Host, HostFault, Request, TakeRequest};
use memory_host::{Blob, HeldBlobs, MemoryHost, QueueHost};
use std::test::Fail;

// Three layers over a bottom, the topmost first.
fn pile<H>(passes: [u64; 3], bottom: H) -> FailLayer<FailLayer<FailLayer<H>>> {
    let lowest = FailLayer::new(passes[2], bottom);
    FailLayer::new(passes[0], FailLayer::new(passes[1], lowest))
}

#[test]
fn each_layer_refuses_once(rt: HostRuntime) -> Result<(), Fail> {
    let memory = MemoryHost::new(rt.alloc(), 512, 100, &[5])?;
    let mut host = pile([3, 1, 0], memory);
    let answers = [
        host.cut(0),
        host.cut(0),
        host.remove(5),
        host.cut(0),
        host.cut(64),
    ];
    let expected = [
        Err(cutting(2)),
        Err(cutting(1)),
        Ok(()),
        Err(cutting(0)),
        Ok(()),
    ];
    assert_eq!(rt; answers, expected);
    assert_eq!(rt; (host.length(), host.segment_size()), (64, 512));
    assert_eq!(rt; (host.take_request(), host.held_blobs().len()), (None, 0));
    Ok(())
}

fn cutting(layer: u8) -> HostFault {
    HostFault::Cut {
        offset: 0,
        code: 9,
        layer,
    }
}

#[test]
fn faults_count_the_layers_above(rt: HostRuntime) -> Result<(), Fail> {
    let queue = QueueHost::new(rt.alloc(), 256, 0, &[-7])?;
    let mut host = pile([70, 0, 0], queue);
    let early = [host.remove(-7), host.remove(-7)];
    for offset in 0..64u64 {
        let _ = host.cut(offset);
    }
    let full = host.remove(-7);
    let taken = host.take_request();
    let late = host.remove(-7);
    assert_eq!(rt; early, [Err(removal(9, 1)), Err(removal(9, 2))]);
    assert_eq!(rt; (full, late), (Err(removal(2, 3)), Ok(())));
    assert_eq!(rt; taken, Some(Request::Cut(0)));
    assert_eq!(rt; host.held_blobs().len(), 0);
    Ok(())
}

fn removal(code: u16, layer: u8) -> HostFault {
    HostFault::Remove {
        blob: -7,
        code,
        layer,
    }
}

#[test]
fn a_full_list_takes_no_more(rt: HostRuntime) -> Result<(), Fail> {
    let mut host = QueueHost::new(rt.alloc(), 256, 1000, &[])?;
    for offset in 0..64u64 {
        let _ = host.fill(offset);
    }
    let full = host.cut(0);
    let lengths = (host.length(), host.queued().len());
    let taken = [host.take_request(), host.take_request()];
    let free = host.cut(4);
    assert_eq!(rt;
        (full, free),
        (
            Err(HostFault::Cut {
                offset: 0,
                code: 2,
                layer: 0,
            }),
            Ok(()),
        )
    );
    assert_eq!(rt; lengths, (1000, 64));
    assert_eq!(rt; taken, [Some(Request::Fill(0)), Some(Request::Fill(1))]);
    assert_eq!(rt;
        (host.length(), host.queued().last().copied()),
        (4, Some(Request::Cut(4)))
    );
    Ok(())
}

#[test]
fn lengths_stay_in_range(rt: HostRuntime) -> Result<(), Fail> {
    let mut host = MemoryHost::new(rt.alloc(), 512, 100, &[])?;
    host.cut(200)?;
    let first = host.length();
    host.fill(1024)?;
    let second = host.length();
    host.fill(u64::MAX - 10)?;
    assert_eq!(rt; [first, second, host.length()], [100, 1536, u64::MAX]);
    Ok(())
}

#[test]
fn the_first_blobs_are_held(rt: HostRuntime) -> Result<(), Fail> {
    let mut list = [7; 1026];
    list[1] = -9;
    list[1023] = 8;
    list[1024] = 10;
    let mut host = MemoryHost::new(rt.alloc(), 512, 0, &list)?;
    assert!(rt; host.held_blobs() == [Blob(-9), Blob(7), Blob(8)].as_slice());
    host.remove(7)?;
    host.remove(10)?;
    assert!(rt; host.held_blobs() == [Blob(-9), Blob(8)].as_slice());
    Ok(())
}

// The three requests, of a host whose type is not known here.
fn asked_of(host: &mut dyn Host) -> [Result<(), HostFault>; 3] {
    [host.cut(64), host.fill(512), host.remove(5)]
}

#[test]
fn a_host_behind_a_reference_is_asked(rt: HostRuntime) -> Result<(), Fail> {
    let memory = MemoryHost::new(rt.alloc(), 512, 100, &[5])?;
    let mut host = FailLayer::new(1, memory);
    let refused = HostFault::Fill {
        offset: 512,
        code: 9,
        layer: 0,
    };
    assert_eq!(rt; asked_of(&mut host), [Ok(()), Err(refused), Ok(())]);
    assert_eq!(rt; (host.length(), host.held_blobs().len()), (64, 0));
    Ok(())
}
