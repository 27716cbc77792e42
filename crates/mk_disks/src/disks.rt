// Keepers over files in memory, which are opened, closed and started again.
use mk_sqlite::SqlKeeper;
use sqlite::{Connection, FileStore, Files, Options};
use sqlite_disk::{Crash, Disk, Fuse, Memory};
use std::alloc::Global;

/// A disk in memory that stops.
pub type Fused = Fuse<Memory>;

/// A keeper over a log and a database on such disks.
pub type KeeperOver<D> = SqlKeeper<FileStore<D>>;

/// An empty log and an empty database, which stop after so many calls.
pub fn files(alloc: Global, log: u64, db: u64) -> Files<Fused> {
    Files {
        log: Fuse::new(Memory::new(alloc), log),
        db: Fuse::new(Memory::new(alloc), db),
    }
}

/// A keeper over the files, or else the files. It is of any disk, as all that takes a keeper here.
/// Few functions make, lend or close one, since each takes the prover some twenty seconds for it.
pub fn opened<D: Disk + Drop>(alloc: Global, files: Files<D>) -> Result<KeeperOver<D>, Files<D>> {
    if !files.may_be_used() {
        return Err(files);
    }
    match Connection::open_files(alloc, files, Options::new(7)) {
        Ok(connection) => Ok(SqlKeeper::over(connection)),
        Err((_error, left)) => Err(left.into_files()),
    }
}

/// The files of a keeper, whether they could be closed well or not.
pub fn closed<D: Disk + Drop>(keeper: KeeperOver<D>) -> Option<Files<D>> {
    match keeper.back() {
        Some(connection) => match connection.close_files() {
            Ok(files) => Some(files),
            Err((_error, store)) => Some(store.close()),
        },
        None => None,
    }
}

/// The files after a stop: what was not yet safe is lost, and they take calls again.
pub fn restarted(mut files: Files<Fused>) -> Files<Fused> {
    files.log.crash();
    files.db.crash();
    files
}
