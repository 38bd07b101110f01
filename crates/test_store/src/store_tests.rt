//! What a crash may leave of a folder, of a trace that is written by hand.

use crate::asserts::same;
use rand_pcg::Pcg32;
use rig_play::Meta;
use rig_store::{Difference, Image, Store, Trace, differences, draw, draw_torn, present};
use std::alloc::Global;
use std::test::Fail;

/// Appends a record: its action, the numbers of a file and a name, a place and its bytes.
fn put(
    out: &mut Vec<u8>,
    action: u32,
    about: (u32, u32),
    place: u64,
    bytes: &[u8],
) -> Result<(), Fail> {
    for number in [action, about.0, about.1, 7] {
        out.extend_from_slice(&number.to_le_bytes())?;
    }
    for number in [0, place, bytes.len() as u64] {
        out.extend_from_slice(&number.to_le_bytes())?;
    }
    out.extend_from_slice(bytes)?;
    Ok(())
}

/// A log of two sectors, of which the second is written, and a file that is made beside it.
fn trace(alloc: Global) -> Result<Vec<u8>, Fail> {
    let mut out = b"SQCRTR2\n".to_vec(alloc)?;
    put(&mut out, 13, (0, 0), 0, b"log")?;
    put(&mut out, 13, (0, 0), 0, b"new")?;
    put(&mut out, 1, (0, 0), 0, &[1; 1024])?;
    put(&mut out, 4, (0, 0), 512, &[2; 512])?;
    put(&mut out, 2, (1, 1), 0, b"")?;
    put(&mut out, 4, (1, 1), 0, b"abc")?;
    Ok(out)
}

/// The folder behind its records.
fn played(alloc: Global) -> Result<Store, Fail> {
    let bytes = trace(alloc)?;
    let read = Trace::read(alloc, &bytes)?;
    let mut store = Store::new(alloc, 512, true, Meta::Whole);
    for call in &read.calls {
        store.play(&bytes, call)?;
    }
    Ok(store)
}

// Where the write and the making aren't down, these are told; of the present files nothing is.
#[test]
fn told(rt: HostRuntime) -> Result<(), Fail> {
    let alloc = rt.alloc();
    let store = played(alloc)?;
    let mut files = Vec::new(alloc);
    files.push(Some(vec![in alloc; 1; 1024]?))?;
    files.push(None)?;
    let found = differences(alloc, &store, &Image { files })?;
    let mut sectors = Vec::new(alloc);
    sectors.push((1, 1))?;
    let log = Difference {
        name: 0,
        shown: Some(1024),
        now: Some(1024),
        sectors,
    };
    let made = Difference {
        name: 1,
        shown: None,
        now: Some(3),
        sectors: Vec::new(alloc),
    };
    same(&rt, found.len(), 2);
    same(&rt, found.first() == Some(&log), true);
    same(&rt, found.last() == Some(&made), true);
    let now = present(alloc, &store)?;
    same(&rt, differences(alloc, &store, &now)?.len(), 0);
    Ok(())
}

// An image that is drawn has the log, and one that is torn another second sector.
#[test]
fn drawn(rt: HostRuntime) -> Result<(), Fail> {
    let alloc = rt.alloc();
    let store = played(alloc)?;
    same(&rt, (store.names(), store.sector()), (2, 512));
    same(&rt, store.meta(), Meta::Whole);
    let mut rng = Pcg32::new(1, 1);
    let whole = draw(alloc, &mut rng, &store)?;
    same(&rt, whole.files.len(), 2);
    let torn = draw_torn(alloc, &mut rng, &store)?;
    same(&rt, torn.files.len(), 2);
    Ok(())
}

// The record of the first name.
#[test]
fn a_call(rt: HostRuntime) -> Result<(), Fail> {
    let alloc = rt.alloc();
    let bytes = trace(alloc)?;
    let read = Trace::read(alloc, &bytes)?;
    let call = read.calls.first().ok_or("no call")?;
    same(&rt, (call.carried(), call.has_failed()), (3, false));
    same(&rt, call.bytes(&bytes), b"log".as_slice());
    Ok(())
}
