//! The backup in progress, and the connection that waits for it.
use admin_http::backup::BackupResult;
use server_base::backups::{MakeBackups, Progress};

/// The backup in progress, if there is one.
#[derive(Drop)]
pub(crate) struct BackupJob {
    // The key of the connection that requested it.
    requested_by: Option<usize>,
}

impl BackupJob {
    /// Creates a job without a backup.
    pub(crate) fn new() -> BackupJob {
        BackupJob { requested_by: None }
    }

    /// Returns true if a backup is in progress.
    pub(crate) fn is_running(&self) -> bool {
        self.requested_by.is_some()
    }

    /// Begins a backup for the connection under that key. Returns the result at once if the backup
    /// does not go on.
    pub(crate) fn begin<B, K: MakeBackups<B>>(
        &mut self,
        key: usize,
        backend: &B,
        name: &str,
        backups: Option<&mut K>,
    ) -> Option<BackupResult> {
        if self.requested_by.is_some() {
            return Some(BackupResult::Busy);
        }
        let Some(backups) = backups else {
            return Some(BackupResult::NoDirectory);
        };
        match backups.begin(backend, name) {
            Progress::GoesOn => {
                self.requested_by = Some(key);
                None
            }
            Progress::Ended(backup) => Some(backup),
        }
    }

    /// Makes one step of the backup in progress. At its end, returns the key of the connection that
    /// requested it, and the result.
    pub(crate) fn go_on<B, K: MakeBackups<B>>(
        &mut self,
        backend: &B,
        backups: Option<&mut K>,
    ) -> Option<(usize, BackupResult)> {
        let key = self.requested_by?;
        let backups = backups?;
        match backups.go_on(backend) {
            Progress::GoesOn => None,
            Progress::Ended(backup) => {
                self.requested_by = None;
                Some((key, backup))
            }
        }
    }

    /// Aborts the backup in progress, because the service ends.
    pub(crate) fn abort<B, K: MakeBackups<B>>(&mut self, backups: Option<&mut K>) {
        if self.requested_by.is_some()
            && let Some(backups) = backups
        {
            backups.abort();
        }
        self.requested_by = None;
    }
}
