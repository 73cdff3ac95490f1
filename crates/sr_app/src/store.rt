//! The file of a store: how it is made, opened and closed. A person is told on standard error why one of that couldn't be.

use hk_sqlite::{SqlKeeper, SqlOpenError};
use sqlite::{Connection, Error, ErrorCode, File, FileStore};
use std::alloc::AllocError;
use std::fs::OpenOptions;
use std::os::unix::fs::OpenOptionsExt;

/// Users and rows in a file.
pub(crate) type FileKeeper = SqlKeeper<FileStore<File>>;

/// Only the owner reads and writes a file of this mode.
const OWNER_ALONE: u32 = 0o600;

/// Opens the file at this path, and makes it if it is absent. `None` if that can't be, and then it said why.
pub(crate) fn open(rt: &HostRuntime, path: &str) -> Result<Option<FileKeeper>, AllocError> {
    make(rt, path);
    let connection = match Connection::open(rt, path) {
        Ok(connection) => connection,
        Err(Error::SqliteFailure(ErrorCode::OutOfMemory)) => return Err(AllocError),
        Err(why) => {
            let _ = eprintln!(rt; "sr: {path}: {why}");
            return Ok(None);
        }
    };
    match SqlKeeper::open(connection) {
        Ok(keeper) => Ok(Some(keeper)),
        Err(SqlOpenError::NoMemory) => Err(AllocError),
        Err(SqlOpenError::Store) => {
            let _ = eprintln!(rt; "sr: {path}: its tables can't be made");
            Ok(None)
        }
    }
}

/// Makes an empty file that its owner alone reads, since access tokens stand in it as they are. A file that is there keeps its mode, and
/// what SQLite lays beside a file has the mode of that. If it can't be made, opening it tells why.
fn make(rt: &HostRuntime, path: &str) {
    if is_no_path(path) {
        return;
    }
    let _ = OpenOptions::new()
        .write(true)
        .create_new(true)
        .mode(OWNER_ALONE)
        .open(rt, path);
}

/// Whether SQLite takes this for the name of something else than a file at this path: it isn't opened then.
fn is_no_path(path: &str) -> bool {
    path == ":memory:" || path.starts_with("file:")
}

/// Closes the file, so that all that was kept stands in it and not in the log beside it.
pub(crate) fn close(rt: &HostRuntime, path: &str, keeper: FileKeeper) {
    if let Err(why) = keeper.close().close() {
        let _ = eprintln!(rt; "sr: {path}: {why}");
    }
}
