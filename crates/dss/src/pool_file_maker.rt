//! The files that a running instance of a pool writes. Each is made in steps between rounds: first
//! in memory, without a wait for the disk, and then in the directory. It gets its name when it has
//! the airspace of the instance and the system has stored it.
use crate::chain_file::ChainText;
use crate::etcd_io::EtcdIo;
use crate::new_database::empty_database;
use crate::next_file::NextFile;
use crate::patience::Patience;
use crate::pool_files::{FileName, PoolFiles};
use admin_http::admin_route::AdminRoute;
use admin_http::backup::BackupResult;
use pool_backend::pool::PoolInstance;
use pool_etcd::etcd_log::EtcdLog;
use server_backend::backend::Backend;
use server_base::backups::{MakeBackups, Progress};
use space_copy::airspace_copy::AirspaceCopy;
use space_copy::memory_database::{MemoryDatabase, close_database, open_database};
use space_copy::memory_file::MemoryFile;
use space_memory::memory::MemorySpace;
use space_sql::space::SqlSpace;
use sqlite::FileStore;
use std::alloc::Global;
use std::fs::{self, File};
use std::io;

// An instance whose log is in etcd.
type EtcdInstance<'a> = PoolInstance<EtcdLog, EtcdIo<'a>, MemorySpace>;

// A copy of the airspace to a database in memory.
type MemoryCopy = AirspaceCopy<FileStore<MemoryFile>>;

// The name of a file, and its chain.
#[derive(Drop)]
struct Identity {
    name: FileName,
    chain: ChainText,
}

// What is left to do for a file.
#[derive(Drop)]
enum Making {
    // To copy the airspace.
    Copies(MemoryCopy, NextFile),
    // To close the database, which has the airspace.
    Closes(MemoryDatabase, NextFile, Identity),
    // To write its content to the file.
    Writes(MemoryFile, NextFile, Identity),
    // To wait until the system has stored the file.
    Stores(NextFile, Identity),
    // To write its chain.
    Chains(FileName, String),
    // To give it its name.
    Names(FileName),
    // To remove older files.
    Clears(FileName),
    // Nothing. The file has this size in bytes.
    Nothing(u64),
}

/// The maker of files of an instance.
#[derive(Drop)]
pub(crate) struct PoolFileMaker<'a> {
    rt: &'a HostRuntime,
    files: PoolFiles<'a>,
    // The number of the pool's settings, and that of the airspace at the beginning of its log.
    settings: u64,
    beginning: u64,
    making: Option<Making>,
    // The lock of the directory, while a file is made.
    lock: Option<File>,
    patience: Patience<'a>,
}

// Returns the result of a failed call of the system.
fn failed(error: io::Error) -> BackupResult {
    match error.kind() {
        io::ErrorKind::OutOfMemory => BackupResult::Memory,
        _ => BackupResult::WriteFailed,
    }
}

// Creates the tables of an empty airspace in memory.
fn new_copy(alloc: Global) -> Result<MemoryCopy, BackupResult> {
    let Ok(content) = empty_database(alloc) else {
        return Err(BackupResult::Memory);
    };
    let Ok(database) = open_database(alloc, content) else {
        return Err(BackupResult::Memory);
    };
    match SqlSpace::adopt(alloc, database) {
        Ok((space, _)) => Ok(AirspaceCopy::new(alloc, space.release())),
        Err(_) => Err(BackupResult::Memory),
    }
}

// Closes the database.
fn close(
    database: MemoryDatabase,
    next: NextFile,
    identity: Identity,
) -> Result<Making, BackupResult> {
    match close_database(database) {
        Ok(content) => Ok(Making::Writes(content, next, identity)),
        Err(_) => Err(BackupResult::Memory),
    }
}

// Writes a chunk of the content.
fn write(content: MemoryFile, mut next: NextFile, identity: Identity) -> io::Result<Making> {
    Ok(if next.write(&content)? {
        Making::Stores(next, identity)
    } else {
        Making::Writes(content, next, identity)
    })
}

// Waits until the system has stored the file. Then the whole chain is known.
fn store(alloc: Global, next: NextFile, identity: Identity) -> io::Result<Making> {
    let Identity { name, chain } = identity;
    let digest = next.finish()?;
    Ok(Making::Chains(name, chain.with_file(alloc, name.revision, &digest)?))
}

impl<'a> PoolFileMaker<'a> {
    /// Creates the maker of files in a directory. Opens nothing.
    pub(crate) fn new(
        rt: &'a HostRuntime,
        files: PoolFiles<'a>,
        settings: u64,
        beginning: u64,
    ) -> PoolFileMaker<'a> {
        PoolFileMaker {
            rt,
            files,
            settings,
            beginning,
            making: None,
            lock: None,
            patience: Patience::new(rt),
        }
    }

    // Locks the directory, and begins a copy.
    fn try_begin(&mut self) -> Result<(), BackupResult> {
        match self.files.lock_and_clear() {
            Ok(Some((lock, _))) => self.lock = Some(lock),
            Ok(None) => return Err(BackupResult::Busy),
            Err(error) => return Err(failed(error)),
        }
        let next = self.next_file().map_err(failed)?;
        self.making = Some(Making::Copies(new_copy(self.rt.alloc())?, next));
        Ok(())
    }

    // Creates the file that is not complete yet.
    fn next_file(&self) -> io::Result<NextFile> {
        let path = self.files.next()?;
        NextFile::create(self.rt, path.as_str())
    }

    // Makes a step of the copy. Once it has the airspace, its name and its chain are known. While
    // the log has given more than the instance has taken, the copy waits.
    fn copy<'b>(
        &self,
        mut copy: MemoryCopy,
        next: NextFile,
        backend: &EtcdInstance<'b>,
    ) -> Result<Making, BackupResult> {
        let log = backend.instance().log();
        let (revision, count) = log.position();
        if count != backend.instance().taken() {
            return Ok(Making::Copies(copy, next));
        }
        let Ok(shown) = backend.snapshot() else {
            return Err(BackupResult::ReadFailed);
        };
        match copy.step(shown, count) {
            Ok(true) => {}
            Ok(false) => return Ok(Making::Copies(copy, next)),
            Err(_) => return Err(BackupResult::Memory),
        }
        let Ok(chain) = ChainText::of(self.rt.alloc(), log.chain()) else {
            return Err(BackupResult::Memory);
        };
        let name = FileName {
            revision,
            settings: self.settings,
            beginning: self.beginning,
        };
        let identity = Identity { name, chain };
        Ok(Making::Closes(copy.into_connection(), next, identity))
    }

    // Returns the size of the file of that name.
    fn size(&self, name: FileName) -> io::Result<u64> {
        let path = self.files.path_of(name)?;
        Ok(fs::metadata(self.rt, path.as_str())?.len())
    }

    // Writes the chain of the database, unless a file has the same revision.
    fn chain(&self, name: FileName, text: &str) -> io::Result<Making> {
        match self.files.newest()? {
            Some(newest) if newest.revision >= name.revision => {
                Ok(Making::Nothing(self.size(newest)?))
            }
            _ => {
                self.files.put_chain(name, text.as_bytes())?;
                Ok(Making::Names(name))
            }
        }
    }

    // Gives the database its name.
    fn name(&self, name: FileName) -> io::Result<Making> {
        self.files.put(name)?;
        Ok(Making::Clears(name))
    }

    // Removes older files.
    fn clear(&self, name: FileName) -> io::Result<Making> {
        self.files.keep_two()?;
        Ok(Making::Nothing(self.size(name)?))
    }

    // Makes a step. Returns what is left to do.
    fn step<'b>(&self, making: Making, backend: &EtcdInstance<'b>) -> Result<Making, BackupResult> {
        match making {
            Making::Copies(copy, next) => self.copy(copy, next, backend),
            Making::Closes(database, next, identity) => close(database, next, identity),
            Making::Writes(content, next, identity) => {
                write(content, next, identity).map_err(failed)
            }
            Making::Stores(next, identity) => {
                store(self.rt.alloc(), next, identity).map_err(failed)
            }
            Making::Chains(name, text) => self.chain(name, text.as_str()).map_err(failed),
            Making::Names(name) => self.name(name).map_err(failed),
            Making::Clears(name) => self.clear(name).map_err(failed),
            Making::Nothing(size) => Ok(Making::Nothing(size)),
        }
    }

    // Ends the file in progress, and removes what is not complete of it.
    fn end(&mut self) {
        self.making = None;
        if self.lock.is_some() {
            let _ = self.files.clear();
        }
        self.lock = None;
    }
}

impl<'a, 'b> MakeBackups<EtcdInstance<'b>> for PoolFileMaker<'a> {
    fn route(&self) -> AdminRoute {
        AdminRoute::File
    }

    fn begin(&mut self, _backend: &EtcdInstance<'b>, _name: &str) -> Progress {
        match self.try_begin() {
            Ok(()) => Progress::GoesOn,
            Err(result) => {
                self.end();
                Progress::Ended(result)
            }
        }
    }

    fn go_on(&mut self, backend: &EtcdInstance<'b>) -> Progress {
        if backend.instance().waiting() != 0 && self.patience.lasts() {
            return Progress::GoesOn;
        }
        let Some(making) = self.making.take() else {
            return Progress::Ended(BackupResult::WriteFailed);
        };
        let stepped = self.step(making, backend);
        self.patience.note_step();
        match stepped {
            Ok(Making::Nothing(size)) => {
                self.end();
                Progress::Ended(BackupResult::Made(size))
            }
            Ok(next) => {
                self.making = Some(next);
                Progress::GoesOn
            }
            Err(result) => {
                self.end();
                Progress::Ended(result)
            }
        }
    }

    fn abort(&mut self) {
        self.end();
    }
}
