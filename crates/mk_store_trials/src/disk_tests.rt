// A keeper over disks in memory, which are opened again, and stopped at each of their calls.
use crate::keeper_tests::{loaded, put_first, put_second};
use mk_disks::{Done, Task, count_in, done_again, done_twice_in, files};
use mk_outside::Keeper;
use std::alloc::{AllocError, Global};
use std::test::Fail;

enum Batches {
    /// Both batches are put.
    Put,
    /// The tables are loaded.
    Load,
}

impl Task for Batches {
    fn done<K: Keeper>(&self, alloc: Global, keeper: &mut K) -> Result<Done, AllocError> {
        match self {
            Batches::Put => Ok(Done {
                count: Some(put_both(keeper, alloc)?),
                read: Vec::new(alloc),
            }),
            Batches::Load => Ok(Done {
                count: Some(0),
                read: loaded(keeper, alloc)?,
            }),
        }
    }
}

// How many of the two batches were made.
fn put_both<K: Keeper>(keeper: &mut K, alloc: Global) -> Result<usize, AllocError> {
    if !put_first(keeper, alloc)? {
        return Ok(0);
    }
    Ok(if put_second(keeper, alloc)? { 2 } else { 1 })
}

// How many batches were made over files that stop after so many calls, and what is loaded of them
// afterwards.
fn stopped(alloc: Global, log: u64, db: u64) -> Result<(usize, Vec<u8>), Fail> {
    let (made, files) = count_in(alloc, files(alloc, log, db), &Batches::Put)?;
    Ok((made, done_again(alloc, files, &Batches::Load)?.read))
}

// What is loaded after none, one and both of the batches.
static LEFT: [&str; 3] = ["11", "3ab2qt7q18548", "3c2qt7q18548"];

fn is_left(left: &[u8], batches: usize) -> bool {
    match LEFT.get(batches) {
        Some(wanted) => left == wanted.as_bytes(),
        None => false,
    }
}

// Stops the one file or the other at each call, until both batches are made. Says how often it was
// stopped before one was made, before the other, and behind both.
fn stop_each(alloc: Global, stops_log: bool) -> Result<[usize; 3], Fail> {
    let mut seen = [0usize; 3];
    for calls in 0..1000 {
        let (log, db) = if stops_log {
            (calls, u64::MAX)
        } else {
            (u64::MAX, calls)
        };
        let (made, left) = stopped(alloc, log, db)?;
        if !is_left(left.as_slice(), made) && !is_left(left.as_slice(), made.saturating_add(1)) {
            return Err(Fail::new("the tables of no number of batches"));
        }
        if let Some(count) = seen.get_mut(made) {
            *count = count.saturating_add(1);
        }
        if made == 2 {
            return Ok(seen);
        }
    }
    Err(Fail::new("both batches are never made"))
}

#[test]
fn a_stopped_log_leaves_whole_batches(rt: HostRuntime) -> Result<(), Fail> {
    let seen = stop_each(rt.alloc(), true)?;
    assert!(rt; seen[0] > 1 && seen[1] > 1 && seen[2] == 1);
    Ok(())
}

#[test]
fn a_stopped_database_leaves_whole_batches(rt: HostRuntime) -> Result<(), Fail> {
    let seen = stop_each(rt.alloc(), false)?;
    assert!(rt; seen[2] == 1);
    Ok(())
}

#[test]
fn a_keeper_opened_again_keeps_all(rt: HostRuntime) -> Result<(), Fail> {
    let alloc = rt.alloc();
    let files = files(alloc, u64::MAX, u64::MAX);
    let done = done_twice_in(alloc, files, &Batches::Put, &Batches::Load)?;
    let done = done.ok_or("files that can't be opened")?;
    assert!(rt; done.count == Some(2) && is_left(done.read.as_slice(), 2));
    Ok(())
}
