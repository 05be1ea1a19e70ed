//! The maker of backups of a database, which reads its files and not the backend.
use admin_http::admin_route::AdminRoute;
use server_base::backups::{MakeBackups, Progress};

/// A maker of backups that does not read the backend.
#[derive(Drop)]
pub(crate) struct FileBackups<K> {
    maker: K,
}

/// Returns the maker, if there is one, as one for any backend.
pub(crate) fn for_any_backend<K>(maker: Option<K>) -> Option<FileBackups<K>> {
    match maker {
        Some(maker) => Some(FileBackups { maker }),
        None => None,
    }
}

impl<B, K: MakeBackups<()>> MakeBackups<B> for FileBackups<K> {
    fn route(&self) -> AdminRoute {
        self.maker.route()
    }

    fn begin(&mut self, _backend: &B, name: &str) -> Progress {
        self.maker.begin(&(), name)
    }

    fn go_on(&mut self, _backend: &B) -> Progress {
        self.maker.go_on(&())
    }

    fn abort(&mut self) {
        self.maker.abort();
    }
}
