//! The trait that makes backups while the service runs.
use admin_http::admin_route::AdminRoute;
use admin_http::backup::BackupResult;

/// The progress of a backup.
#[derive(Clone, Copy, Debug, PartialEq, Eq)]
pub enum Progress {
    /// More steps are needed.
    GoesOn,
    /// The backup is over, with this result.
    Ended(BackupResult),
}

/// Makes backups of a backend `B` while the service runs, one at a time and in steps.
///
/// The service calls it between batches, when no change is half made. No call takes long.
pub trait MakeBackups<B> {
    /// Returns the endpoint at which backups are requested: `Backup`, with a name, or `File`.
    fn route(&self) -> AdminRoute;

    /// Begins a backup of that name. It is empty for `File`.
    fn begin(&mut self, backend: &B, name: &str) -> Progress;

    /// Makes the next step of the backup in progress.
    fn go_on(&mut self, backend: &B) -> Progress;

    /// Aborts the backup in progress and removes its partial file.
    fn abort(&mut self);
}

/// Makes no backups: each ends at once, since there is no directory for it.
#[derive(Clone, Copy, Debug)]
pub struct NoBackups;

impl<B> MakeBackups<B> for NoBackups {
    fn route(&self) -> AdminRoute {
        AdminRoute::Backup
    }

    fn begin(&mut self, _backend: &B, _name: &str) -> Progress {
        Progress::Ended(BackupResult::NoDirectory)
    }

    fn go_on(&mut self, _backend: &B) -> Progress {
        Progress::Ended(BackupResult::NoDirectory)
    }

    fn abort(&mut self) {}
}
