//! A connection to tables in memory.

ghost use Rattle.std.specs.Prelude.{◌≡◌, [], IfOk};
ghost use Rattle.sqlite_trees.specs.Objects.{catalog_tree};
ghost use Rattle.sqlite_store.specs.FileStore.{view};
ghost use Rattle.sqlite.specs.Held.{IsNew};
ghost use Rattle.sqlite.specs.Files.{file_state};
ghost use Rattle.sqlite.specs.Steps.{IsEmpty, IsFresh};

use crate::memory::MemoryFile;
use sqlite::{Connection, Error, FileStore, Files, Options};
use sqlite_pager::{PageSize, Pager};
use sqlite_store::Unopened;
use std::alloc::{AllocError, Global};

/// The trees of a database, in pages of memory.
pub type PageStore = FileStore<MemoryFile>;

/// A commit copies, digests and logs whole pages, so a small commit is the cheaper the shorter they are.
const PAGE_BYTES: usize = 1024;

/// How many pages that were read are kept: 8 MB, as the default options keep of pages of 4,096 bytes.
const CACHED_PAGES: usize = 8000;

/// The log's salts tell an old commit from a new one after a crash. Memory has no after.
const SEED: u64 = 1;

/// A new database in memory, with no table. It fails only where memory runs out.
pub fn open(alloc: Global) -> Result<Connection<PageStore>, Error>
    ensures empty { IfOk result (λ connection. IsEmpty (file_state connection)) }
    ensures fresh { IfOk result IsNew }
{
    let store = empty_store(alloc)?;
    match Connection::over(alloc, store) {
        Ok(connection) => Ok(connection),
        Err((error, _store)) => Err(error),
    }
}

/// The trees of a database with no table. A file in memory fails only when out of memory, so that is each failure.
fn empty_store(alloc: Global) -> Result<PageStore, AllocError>
    ensures fresh { IfOk result (λ store. IsFresh (view store)) }
    ensures empty { IfOk result (λ store. (view store).trees catalog_tree ≡ []) }
{
    let files = Files {
        log: MemoryFile::new(alloc),
        db: MemoryFile::new(alloc),
    };
    let size = PageSize::new(PAGE_BYTES).unwrap();
    let mut options = Options::new(SEED);
    options.cache_pages = CACHED_PAGES;
    let Ok(pager) = Pager::new(alloc, files, size, options) else {
        return Err(AllocError);
    };
    let Ok(unopened) = Unopened::new(alloc, pager, &[]) else {
        return Err(AllocError);
    };
    match unopened.create() {
        Ok(store) => Ok(store),
        Err(_) => Err(AllocError),
    }
}
