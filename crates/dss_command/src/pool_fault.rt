//! The reasons why an instance of a pool does not start, or has ended.
ghost use Rattle.std.specs.Prelude.{◌≡◌};

/// The reason why an instance of a pool does not start, or has ended.
#[derive(Clone, Copy, Debug, PartialEq, Eq)]
pub enum PoolFault {
    /// The file of the user of etcd does not open, fails to read or is not UTF-8.
    UserUnread,
    /// The file of the user of etcd is not one line with a name and a password.
    UserInvalid,
    /// The system gives no random bytes.
    NoRandom,
    /// Another process writes under the name of the instance.
    Replaced,
    /// Entries of the log were removed before they were received.
    Compacted,
    /// The key of this process was deleted.
    Deleted,
    /// The log ends before an entry that was received.
    Shortened,
    /// The instances of the pool have other settings, or its files are of such a pool. These are
    /// its salt, its policy, and the airspace at the beginning of its log.
    Settings,
    /// The supplier list of the pool forbids a USS of an entry that this instance wrote.
    Suppliers,
    /// An entry of this instance was stored too many changes behind its link.
    Unlinked,
    /// More organizations were given other changes of the log than the same ones.
    Diverged,
    /// A batch of changes of this instance was not stored in time, and never will be.
    Unmade,
    /// No member of etcd has said anything of the log for too long.
    Silent,
    /// The directory of the pool's files, or a file in it, cannot be read or written.
    Files,
    /// The directory of the pool's files has none.
    NoFile,
    /// The newest file of the pool is gone, or has no airspace.
    NoAirspace,
    /// The chain of the newest file of the pool is gone, or is no chain.
    NoChain,
    /// The directory for the first file of a pool has a file of a pool.
    HasFile,
    /// Another process writes to the directory of the pool's files.
    FilesBusy,
    /// The instance cannot go on. Usually memory ran out in an entry.
    Ended,
}

impl PoolFault {
    ghost use Rattle.dss_command.specs.PoolFault.{text_of};

    /// Returns what is wrong and what to do, as it is printed.
    pub fn text(self) -> &'static str
        ensures { result.now ≡ text_of self }
    {
        match self {
            PoolFault::UserUnread => "etcd user: cannot read its file",
            PoolFault::UserInvalid => "etcd user: its file is not one line NAME:PASSWORD",
            PoolFault::NoRandom => "random: the system gives no random bytes",
            PoolFault::Replaced => {
                "replaced: another process writes under this name; stop one of them"
            }
            PoolFault::Compacted => {
                "compacted: etcd no longer has the entries behind the start; \
                 use --files with a newer file"
            }
            PoolFault::Deleted => {
                "deleted: the key of this process was deleted from etcd; start it again"
            }
            PoolFault::Shortened => {
                "shortened: etcd lost entries of the log; \
                 stop all instances of the pool, and restore etcd"
            }
            PoolFault::Settings => {
                "settings: the pool has another salt, policy or beginning; \
                 use its salt, version and files"
            }
            PoolFault::Suppliers => {
                "suppliers: the list forbids a USS of an own entry; \
                 change --tokens, or add it to the list"
            }
            PoolFault::Unlinked => {
                "unlinked: an own entry came too many changes after it was offered; start it again"
            }
            PoolFault::Diverged => {
                "diverged: most organizations were given other changes; \
                 stop the instance, and compare the members of etcd"
            }
            PoolFault::Unmade => {
                "unmade: a batch of changes was not stored in time, and never will be; \
                 start it again"
            }
            PoolFault::Silent => {
                "etcd does not answer; check --pool and that a majority of its members runs"
            }
            PoolFault::Files => {
                "files: cannot read or write the directory; \
                 check that it exists, its permissions and its disk"
            }
            PoolFault::NoFile => {
                "files: the directory has no file REVISION-SETTINGS-BEGINNING.db; \
                 run dss follow or dss begin"
            }
            PoolFault::NoAirspace => {
                "files: the newest file is gone, or has no airspace; \
                 move it away, and start again"
            }
            PoolFault::NoChain => {
                "files: the chain of the newest file is gone or damaged; \
                 copy the file and its chain again"
            }
            PoolFault::HasFile => {
                "files: the directory has a file of a pool; \
                 move its files away, or give another directory"
            }
            PoolFault::FilesBusy => {
                "files: another dss follow or dss begin uses the directory; wait until it ends"
            }
            PoolFault::Ended => "ended: an entry needs more memory; free memory, and start again",
        }
    }
}
