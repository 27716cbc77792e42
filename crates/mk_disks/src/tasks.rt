// What is done with a keeper over files that stop, and what came of it.
use crate::disks::{Fused, KeeperOver, closed, opened, restarted};
use mk_outside::Keeper;
use mk_sqlite::again;
use sqlite::{Files, Options};
use sqlite_disk::Disk;
use std::alloc::{AllocError, Global};
use std::test::Fail;

/// What is done with a keeper.
pub trait Task {
    fn done<K: Keeper>(&self, alloc: Global, keeper: &mut K) -> Result<Done, AllocError>;
}

/// What came of a task: how much of it, or none where it ended as it may not; and what was read.
#[derive(Drop)]
pub struct Done {
    pub count: Option<usize>,
    pub read: Vec<u8>,
}

// What is done over a keeper, and its files afterwards. A keeper has one way out in each function
// here, since the prover goes through all that is let go at each of them.
fn done_and_closed<D: Disk + Drop, T: Task>(
    alloc: Global,
    mut keeper: KeeperOver<D>,
    task: &T,
) -> Result<(Done, Files<D>), Fail> {
    let done = task.done(alloc, &mut keeper);
    let files = closed(keeper).ok_or("no files")?;
    Ok((done?, files))
}

// What the task reads once the keeper is opened again.
fn read_again<D: Disk + Drop, T: Task>(
    alloc: Global,
    keeper: KeeperOver<D>,
    task: &T,
) -> Result<Vec<u8>, Fail> {
    match again(alloc, keeper, Options::new(7)) {
        Ok(keeper) => Ok(done_and_closed(alloc, keeper, task)?.0.read),
        Err((_fail, _rest)) => Err(Fail::new("a keeper")),
    }
}

// The first task is done, and the other once the keeper is opened again.
fn done_and_opened<D: Disk + Drop, T: Task>(
    alloc: Global,
    mut keeper: KeeperOver<D>,
    first: &T,
    second: &T,
) -> Result<Done, Fail> {
    let done = first.done(alloc, &mut keeper);
    let read = read_again(alloc, keeper, second)?;
    Ok(Done {
        count: done?.count,
        read,
    })
}

fn done_in_any<D: Disk + Drop, T: Task>(
    alloc: Global,
    files: Files<D>,
    task: &T,
) -> Result<(Option<Done>, Files<D>), Fail> {
    match opened(alloc, files) {
        Ok(keeper) => {
            let (done, files) = done_and_closed(alloc, keeper, task)?;
            Ok((Some(done), files))
        }
        Err(files) => Ok((None, files)),
    }
}

fn done_twice_in_any<D: Disk + Drop, T: Task>(
    alloc: Global,
    files: Files<D>,
    first: &T,
    second: &T,
) -> Result<Option<Done>, Fail> {
    match opened(alloc, files) {
        Ok(keeper) => Ok(Some(done_and_opened(alloc, keeper, first, second)?)),
        Err(_files) => Ok(None),
    }
}

// What is done over the files, and the files afterwards. Where they can't be opened nothing is.
fn done_in<T: Task>(
    alloc: Global,
    files: Files<Fused>,
    task: &T,
) -> Result<(Option<Done>, Files<Fused>), Fail> {
    done_in_any(alloc, files, task)
}

/// How much of the first task came about, and what the second read once the keeper was opened
/// again. None where the files can't be opened.
pub fn done_twice_in<T: Task>(
    alloc: Global,
    files: Files<Fused>,
    first: &T,
    second: &T,
) -> Result<Option<Done>, Fail> {
    done_twice_in_any(alloc, files, first, second)
}

/// What is done over the files once they take calls again.
pub fn done_again<T: Task>(alloc: Global, files: Files<Fused>, task: &T) -> Result<Done, Fail> {
    let (done, _files) = done_in(alloc, restarted(files), task)?;
    Ok(done.ok_or("files that can't be opened again")?)
}

/// How much of a task came about, and the files afterwards.
pub fn count_in<T: Task>(
    alloc: Global,
    files: Files<Fused>,
    task: &T,
) -> Result<(usize, Files<Fused>), Fail> {
    let (done, files) = done_in(alloc, files, task)?;
    match done {
        Some(done) => Ok((done.count.ok_or("a run that ends otherwise")?, files)),
        None => Ok((0, files)),
    }
}
