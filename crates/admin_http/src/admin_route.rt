//! The routes of the admin port.
ghost use Rattle.std.specs.Prelude.{◌≡◌, IfNone, IfSome};
ghost use Rattle.admin_http.specs.AdminRequest.{IsAsked, IsNoPath, method_of, path_of, status_of};

/// An endpoint of the admin port.
#[derive(Clone, Copy, Debug, PartialEq, Eq)]
pub enum AdminRoute {
    /// The health of the service.
    Health,
    /// The metrics.
    Metrics,
    /// The stop of the service.
    Stop,
    /// A backup of the database.
    Backup,
    /// A file of the pool.
    File,
    /// A page of the airspace.
    Airspace,
    /// The confirmation of the clock, so that purges go on.
    ResumePurges,
}

/// The result of routing a method and a path.
#[derive(Clone, Copy, Debug, PartialEq, Eq)]
pub enum AdminRequest {
    /// A request for the endpoint, with its method.
    Does(AdminRoute),
    /// A request for the endpoint, with a method that it does not allow.
    Refuses(AdminRoute),
    /// A request for no endpoint.
    Unknown,
}

/// The health of the service.
#[derive(Clone, Copy, Debug, PartialEq, Eq)]
pub enum Health {
    /// It answers calls.
    Serving,
    /// It answers calls, and purges are held, because the clock may be wrong.
    Degraded,
    /// It answers calls, and the last commit failed.
    Failing,
    /// It is an instance of a pool, whose log does not answer.
    Silent,
    /// It answers no calls any more.
    Stopped,
    /// An operator requested its stop.
    Stopping,
}

impl AdminRoute {
    /// Returns the only method that it allows.
    pub fn method(self) -> &'static str
        ensures { result.now ≡ method_of self }
    {
        match self {
            AdminRoute::Health => "GET",
            AdminRoute::Metrics => "GET",
            AdminRoute::Stop => "POST",
            AdminRoute::Backup => "POST",
            AdminRoute::File => "POST",
            AdminRoute::Airspace => "GET",
            AdminRoute::ResumePurges => "POST",
        }
    }
}

// Returns the endpoint of a path.
fn page_at(path: &[u8]) -> Option<AdminRoute>
    ensures some { IfSome result (λ page. path.now ≡ path_of page) }
    ensures none { IfNone result (IsNoPath path.now) }
{
    if path == "/health".as_bytes() {
        return Some(AdminRoute::Health);
    }
    if path == "/metrics".as_bytes() {
        return Some(AdminRoute::Metrics);
    }
    if path == "/stop".as_bytes() {
        return Some(AdminRoute::Stop);
    }
    if path == "/backup".as_bytes() {
        return Some(AdminRoute::Backup);
    }
    if path == "/file".as_bytes() {
        return Some(AdminRoute::File);
    }
    if path == "/airspace".as_bytes() {
        return Some(AdminRoute::Airspace);
    }
    if path == "/purge/resume".as_bytes() {
        return Some(AdminRoute::ResumePurges);
    }
    None
}

/// Routes a method and a path.
pub fn route_request(method: &[u8], path: &[u8]) -> AdminRequest
    ensures { IsAsked method.now path.now result }
{
    let Some(page) = page_at(path) else {
        return AdminRequest::Unknown;
    };
    if method == page.method().as_bytes() {
        AdminRequest::Does(page)
    } else {
        AdminRequest::Refuses(page)
    }
}

/// Returns the status of the response.
pub fn request_status(asked: AdminRequest, health: Health) -> u16
    ensures { result ≡ status_of asked health }
{
    match (asked, health) {
        (AdminRequest::Unknown, _) => 404,
        (AdminRequest::Refuses(_), _) => 405,
        (
            AdminRequest::Does(AdminRoute::Health),
            Health::Failing | Health::Silent | Health::Stopped | Health::Stopping,
        ) => 503,
        (AdminRequest::Does(AdminRoute::Backup | AdminRoute::File), _) => 404,
        (AdminRequest::Does(AdminRoute::Airspace), _) => 503,
        _ => 200,
    }
}
