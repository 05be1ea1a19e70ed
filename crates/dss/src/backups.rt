//! The backups that the service requests.
use admin_backup::folder::BackupDir;
use admin_http::admin_route::AdminRoute;
use admin_http::backup::BackupResult;
use server_base::backups::{MakeBackups, Progress};

/// The maker of backups in a directory.
#[derive(Drop)]
pub(crate) struct PortBackups<'a> {
    pub(crate) folder: BackupDir<'a>,
}

// Returns the progress of a backup, given its result if it has ended.
fn progress_of(ended: Option<BackupResult>) -> Progress {
    match ended {
        None => Progress::GoesOn,
        Some(backup) => Progress::Ended(backup),
    }
}

impl<'a> MakeBackups<()> for PortBackups<'a> {
    fn route(&self) -> AdminRoute {
        AdminRoute::Backup
    }

    fn begin(&mut self, _backend: &(), name: &str) -> Progress {
        progress_of(self.folder.begin(name))
    }

    fn go_on(&mut self, _backend: &()) -> Progress {
        progress_of(self.folder.step())
    }

    fn abort(&mut self) {
        self.folder.abort();
    }
}
