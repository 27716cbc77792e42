// A keeper whose files are closed and opened again.
ghost use Rattle.std.specs.Prelude.{◌≡◌, Ok, Some, IfSome, IfOk, IfErr};
ghost use Rattle.sqlite.specs.State.{HasCleanDisk};
ghost use Rattle.sqlite.specs.Files.{over_files, file_state};
ghost use Rattle.mk_sqlite.specs.Keeps.{told_in};
ghost use Rattle.mk_sqlite.specs.Keeper.{kept_tables, IsKeptSound};
ghost use Rattle.mk_sqlite.specs.Again.{FindsAgain, IsNotAgain};

use crate::SqlKeeper;
use crate::fails::fail_of;
use mk_outside::KeepFail;
use sqlite::{Connection, FileStore, Leftover, Options};
use sqlite_disk::Disk;
use std::alloc::Global;

/// What is left of a keeper that wasn't opened again.
pub enum Rest<D: Disk> {
    /// It was shut, and had no files.
    Nothing,
    /// Its files weren't closed.
    Store(FileStore<D>),
    /// They were closed, and weren't opened.
    Files(Leftover<D>),
}

// It is written out, so that a caller doesn't prove again how each part is let go.
impl<D: Disk + Drop> Drop for Rest<D> {
    fn drop(self) {
        match self {
            Rest::Nothing => {}
            Rest::Store(_store) => {}
            Rest::Files(_left) => {}
        }
    }
}

/// Closes the files of a keeper, and opens them again. The new keeper tells the tables of the last
/// commit. An error comes with what is left of the keeper.
pub fn again<D: Disk + Drop>(
    alloc: Global,
    keeper: SqlKeeper<FileStore<D>>,
    options: Options,
) -> Result<SqlKeeper<FileStore<D>>, (KeepFail, Rest<D>)>
    ensures found { IfOk result (λ new. FindsAgain keeper.opened new.opened) }
    ensures sound { IfOk result (λ new. IfOk new.opened (λ c. HasCleanDisk (file_state c) → IsKeptSound over_files new.opened)) }
    ensures tells { IfOk result (λ new. IsKeptSound over_files new.opened → IfSome (kept_tables over_files keeper.opened) (λ t. kept_tables over_files new.opened ≡ Some t)) }
    ensures err { IfErr result (IsNotAgain keeper.opened) }
{
    match keeper.into_opened() {
        Ok(connection) => reopened(alloc, connection, options),
        Err(fail) => Err((fail, Rest::Nothing)),
    }
}

// A keeper over the files of the connection, which are closed and opened again.
fn reopened<D: Disk + Drop>(
    alloc: Global,
    connection: Connection<FileStore<D>>,
    options: Options,
) -> Result<SqlKeeper<FileStore<D>>, (KeepFail, Rest<D>)>
    ensures found { IfOk result (λ new. FindsAgain (Ok connection) new.opened) }
    ensures sound { IfOk result (λ new. IfOk new.opened (λ c. HasCleanDisk (file_state c) → IsKeptSound over_files new.opened)) }
    ensures tells { IfOk result (λ new. IsKeptSound over_files new.opened → IfSome (told_in (file_state connection)) (λ t. kept_tables over_files new.opened ≡ Some t)) }
    ensures err { IfErr result (IsNotAgain (Ok connection)) }
{
    // For the proof alone: what the library says of the schema says that the database is sound.
    let _schema = connection.schema();
    match connection.close_files() {
        Ok(files) => match Connection::open_files(alloc, files, options) {
            Ok(connection) => Ok(SqlKeeper::over(connection)),
            Err((error, left)) => Err((fail_of(error), Rest::Files(left))),
        },
        Err((error, store)) => Err((fail_of(error), Rest::Store(store))),
    }
}
