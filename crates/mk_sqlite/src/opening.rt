// A database at a path.
ghost use Rattle.std.specs.Prelude.{◌≡◌, false, IfOk};
ghost use Rattle.sqlite_store.specs.FileStore.{view};
ghost use Rattle.sqlite_wal.specs.Files.{image_at};
ghost use Rattle.sqlite.specs.State.{HasCleanDisk};
ghost use Rattle.sqlite.specs.Held.{IsNew};
ghost use Rattle.sqlite.specs.Start.{FindsIn};
ghost use Rattle.sqlite.specs.Files.{file_state, IsOpened, IsBlankAs};

use crate::fails::opened_of;
use mk_outside::KeepFail;
use sqlite::{Connection, FileFrom, FileStore, Start};
use std::fs;
use std::fs::File;
use std::io::Read;

/// Opens the file, or makes it, without checksums of the library's own. A file of one byte that no
/// run left is refused, and stays as it is.
pub fn opened_at<B: Start>(
    rt: &HostRuntime,
    path: &str,
    start: B,
) -> Result<Connection<FileStore<FileFrom<B>>>, KeepFail>
    ensures opened { IfOk result (λ c. HasCleanDisk (file_state c) → IsOpened c) }
    ensures found { IfOk result (λ c. HasCleanDisk (file_state c) → FindsIn (image_at B.Start) (file_state c)) }
    ensures fresh { IfOk result IsNew }
    ensures plain { IfOk result (λ c. HasCleanDisk (file_state c) → IsBlankAs false (image_at B.Start) → (view c.store).has_sums ≡ false) }
{
    if is_stray(rt, path) {
        return Err(KeepFail::Failed);
    }
    opened_of(Connection::open_from(rt, path, false, start))
}

// The library takes a file of one byte for none, and writes over it. A run that is stopped while it
// makes its file may leave a byte of 0. Any other byte is somebody's.
fn is_stray(rt: &HostRuntime, path: &str) -> bool {
    match fs::metadata(rt, path) {
        Ok(found) => found.is_file() && found.len() == 1 && begins_above_zero(rt, path),
        Err(_) => false,
    }
}

// Whether a byte can be read from the file, and isn't 0.
fn begins_above_zero(rt: &HostRuntime, path: &str) -> bool {
    let mut byte = [0u8];
    match File::open(rt, path) {
        Ok(mut file) => file.read(&mut byte).is_ok() && byte[0] != 0,
        Err(_) => false,
    }
}
