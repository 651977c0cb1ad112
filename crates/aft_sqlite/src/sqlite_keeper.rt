ghost use Rattle.std.specs.Prelude.{◌≡◌, None, IfOk};
ghost use Rattle.aft_keeper.specs.Cause.{HasCause};
ghost use Rattle.aft_keeper.specs.Contents.{IsPage};

use crate::page::page_of;
use aft_id::{Bytes, List};
use aft_keeper::{Keeper, KeeperFault, Pair};
use sqlite::{Alter, Connection, Error, ErrorCode, File, FileStore, params};
use std::alloc::Global;

/// One table, a row for each name.
const CREATE: &str =
    "CREATE TABLE IF NOT EXISTS pairs (name TEXT PRIMARY KEY, bytes BLOB NOT NULL)";

const GET: &str = "SELECT bytes FROM pairs WHERE name = ?1";

const PUT: &str =
    "INSERT INTO pairs (name, bytes) VALUES (?1, ?2) ON CONFLICT (name) DO UPDATE SET bytes = ?2";

const DELETE: &str = "DELETE FROM pairs WHERE name = ?1";

const SCAN: &str =
    "SELECT name, bytes FROM pairs WHERE name >= ?1 AND name > ?2 ORDER BY name LIMIT ?3";

/// A store in a SQLite file. It counts its faults, and tells nothing of what it holds: what a file keeps is trusted.
///
/// Each call is one statement outside a transaction. A refusal other than for memory, and a row that a scan may not show, is a fault.
#[derive(Drop)]
pub struct SqliteKeeper<S: Alter = FileStore<File>> {
    connection: Connection<S>,
    faults: u64,
    alloc: Global,
}

impl SqliteKeeper<FileStore<File>> {
    /// The store in the file at a path, which is made where there is none, with the table `pairs(name, bytes)`. `Failed` where the file
    /// can't be opened or is no SQLite database, or another program has it open; `Memory` where memory runs out. The file then holds what it held.
    pub fn at(rt: &HostRuntime, path: &str) -> Result<SqliteKeeper<FileStore<File>>, KeeperFault> {
        match Connection::open(rt, path) {
            Ok(connection) => SqliteKeeper::over(rt.alloc(), connection),
            Err(error) => Err(fault_of(error)),
        }
    }
}

impl<S: Alter + Drop> SqliteKeeper<S> {
    /// The store in what a connection reaches.
    pub(crate) fn over(
        alloc: Global,
        mut connection: Connection<S>,
    ) -> Result<SqliteKeeper<S>, KeeperFault> {
        match connection.execute(CREATE, &[]) {
            Ok(_) => Ok(SqliteKeeper {
                connection,
                faults: 0,
                alloc,
            }),
            Err(error) => Err(fault_of(error)),
        }
    }

    /// The fault that an error is, which is counted unless it is for memory.
    fn refuse(&mut self, error: Error) -> KeeperFault
        ensures { HasCause (result ≡ KeeperFault.Failed) self.old.faults self.new.faults }
    {
        let fault = fault_of(error);
        if fault == KeeperFault::Failed {
            self.faults = self.faults.saturating_add(1);
        }
        fault
    }
}

/// The fault that an error is.
fn fault_of(error: Error) -> KeeperFault {
    match error {
        Error::SqliteFailure(ErrorCode::OutOfMemory) => KeeperFault::Memory,
        _ => KeeperFault::Failed,
    }
}

/// The bytes under a name, if there are any.
fn bytes_under<S: Alter>(
    connection: &mut Connection<S>,
    name: &str,
) -> Result<Option<Bytes>, Error> {
    let bytes: Vec<u8> = match connection.query_row(GET, params![name]) {
        Ok(row) => row.get(0)?,
        Err(Error::QueryReturnedNoRows) => return Ok(None),
        Err(error) => return Err(error),
    };
    Ok(Some(Bytes::from_vec(bytes)))
}

/// The page of a scan.
fn page_under<S: Alter>(
    alloc: Global,
    connection: &mut Connection<S>,
    prefix: &str,
    after: &str,
    limit: u32,
) -> Result<List<Pair>, Error>
    ensures { IfOk result (IsPage prefix.now after.now limit) }
{
    let rows = connection.query_all(SCAN, params![prefix, after, limit])?;
    Ok(List::from_vec(page_of(alloc, &rows, prefix, after, limit)?))
}

impl<S: Alter + Drop> Keeper for SqliteKeeper<S> {
    ghost faults = { λ store. store.faults };

    ghost contents = { λ store. None };

    ghost log = { λ store. None };

    fn get(&mut self, name: &str) -> Result<Option<Bytes>, KeeperFault> {
        match bytes_under(&mut self.connection, name) {
            Ok(found) => Ok(found),
            Err(error) => Err(self.refuse(error)),
        }
    }

    fn put(&mut self, name: &str, bytes: &[u8]) -> Result<(), KeeperFault> {
        match self.connection.execute(PUT, params![name, bytes]) {
            Ok(_) => Ok(()),
            Err(error) => Err(self.refuse(error)),
        }
    }

    fn delete(&mut self, name: &str) -> Result<(), KeeperFault> {
        match self.connection.execute(DELETE, params![name]) {
            Ok(_) => Ok(()),
            Err(error) => Err(self.refuse(error)),
        }
    }

    fn scan(&mut self, prefix: &str, after: &str, limit: u32) -> Result<List<Pair>, KeeperFault> {
        match page_under(self.alloc, &mut self.connection, prefix, after, limit) {
            Ok(page) => Ok(page),
            Err(error) => Err(self.refuse(error)),
        }
    }

    ghost in_order = { λ store. tt };
}
