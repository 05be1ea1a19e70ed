//! The responses of the admin port.
ghost use Rattle.std.specs.Prelude.{◌≡◌, IfOk};
ghost use Rattle.std.specs.String.{string_bytes};
ghost use Rattle.admin_http.specs.Answer.{Answers, AnswersBackup, AnswersForbidden, allow_line, front_of, text_of, type_line, type_of, words_of};
ghost use Rattle.admin_http.specs.ServiceMetrics.{shown_health};

use crate::admin_route::{AdminRequest, AdminRoute, Health, request_status};
use crate::backup::{self, BackupResult};
use crate::build::BuildInfo;
use crate::metrics::metrics;
use crate::service_metrics::ServiceMetrics;
use crate::web_page::{Forbidden, forbidden_text};
use std::alloc::{AllocError, Global};
use wire_head::lines::{length_line, status_line};
use wire_head::rule::WireRule;

// Returns the media type of a body.
fn type_of(page: Option<AdminRoute>) -> &'static str
    ensures { result.now ≡ type_of page }
{
    match page {
        Some(AdminRoute::Metrics) => "text/plain; version=0.0.4; charset=utf-8",
        Some(AdminRoute::Airspace) => "application/json",
        _ => "text/plain; charset=utf-8",
    }
}

// Returns the header `Allow` with the method of an endpoint, if another method was rejected.
fn allow_line(alloc: Global, refused: Option<AdminRoute>) -> Result<String, AllocError>
    ensures { IfOk result (λ line. string_bytes line ≡ allow_line refused) }
{
    let Some(page) = refused else {
        return Ok(String::new(alloc));
    };
    let mut line = String::from_str(alloc, "Allow: ")?;
    line.push_str(page.method())?;
    line.push_str("\r\n")?;
    Ok(line)
}

// Returns the header with the media type of the body.
#[tactic(auto, unfolding(crate::specs::Answer::type_line))]
fn type_line(alloc: Global, media: &str) -> Result<String, AllocError>
    ensures { IfOk result (λ text. string_bytes text ≡ type_line media.now) }
{
    let mut text = String::from_str(alloc, "Content-Type: ")?;
    text.push_str(media)?;
    text.push_str("\r\n")?;
    Ok(text)
}

// Returns the head of the response.
#[tactic(auto, unfolding(crate::specs::Answer::front_of))]
fn front_of(
    alloc: Global,
    status: u16,
    media: &str,
    refused: Option<AdminRoute>,
    size: usize,
) -> Result<String, AllocError>
    ensures { IfOk result (λ front. string_bytes front ≡ front_of status media.now refused size) }
{
    let mut front = status_line(alloc, status)?;
    front.push_str(type_line(alloc, media)?.as_str())?;
    front.push_str(length_line(alloc, size)?.as_str())?;
    front.push_str(allow_line(alloc, refused)?.as_str())?;
    front.push_str("Connection: close\r\n")?;
    front.push_str("\r\n")?;
    Ok(front)
}

// Returns the response with this status, media type and body.
pub(crate) fn whole(
    alloc: Global,
    status: u16,
    page: Option<AdminRoute>,
    refused: Option<AdminRoute>,
    body: &str,
) -> Result<Vec<u8>, AllocError>
    ensures { IfOk result (λ text. text.items ≡ text_of status (type_of page) refused body.now) }
{
    let front = front_of(alloc, status, type_of(page), refused, body.len())?;
    let mut text = front.into_bytes();
    text.extend_from_slice(body.as_bytes())?;
    Ok(text)
}

// Returns the health of the service, in words.
fn health_text(health: Health) -> &'static str
    ensures { result.now ≡ words_of health }
{
    match health {
        Health::Serving => "serving\n",
        Health::Degraded => {
            "degraded: purges are held; check the clock, then POST /purge/resume\n"
        }
        Health::Failing => "failing: the last commit failed\n",
        Health::Silent => "failing: the log of the pool does not answer; check etcd\n",
        Health::Stopped => "stopped: the database failed; restart the service\n",
        Health::Stopping => "stopping: a stop was requested\n",
    }
}

/// Returns the response to a request. For a backup or a file it is the response without a directory
/// for it, and for the airspace the one without a snapshot.
pub fn answer(
    alloc: Global,
    asked: AdminRequest,
    figures: &ServiceMetrics,
    build: BuildInfo<'_>,
) -> Result<Vec<u8>, AllocError>
    ensures { IfOk result (λ text. Answers asked (shown_health figures.now) text.items) }
{
    let health = figures.shown_health();
    let status = request_status(asked, health);
    match asked {
        AdminRequest::Does(AdminRoute::Health) => whole(
            alloc,
            status,
            None,
            None,
            health_text(health),
        ),
        AdminRequest::Does(AdminRoute::Metrics) => {
            let text = metrics(alloc, figures, build)?;
            whole(
                alloc,
                status,
                Some(AdminRoute::Metrics),
                None,
                text.as_str(),
            )
        }
        AdminRequest::Does(AdminRoute::Stop) => whole(alloc, status, None, None, "stopping\n"),
        AdminRequest::Does(AdminRoute::Backup | AdminRoute::File) => whole(
            alloc,
            status,
            None,
            None,
            "no such path\n",
        ),
        AdminRequest::Does(AdminRoute::Airspace) => whole(
            alloc,
            status,
            None,
            None,
            "no snapshot\n",
        ),
        AdminRequest::Does(AdminRoute::ResumePurges) => {
            whole(alloc, status, None, None, "resumed\n")
        }
        AdminRequest::Refuses(page) => whole(
            alloc,
            status,
            None,
            Some(page),
            "method not allowed\n",
        ),
        AdminRequest::Unknown => whole(alloc, status, None, None, "no such path\n"),
    }
}

/// Returns the response to a request for a backup, given its result.
pub fn backup_answer(alloc: Global, backup: BackupResult) -> Result<Vec<u8>, AllocError>
    ensures { IfOk result (λ text. AnswersBackup backup text.items) }
{
    let words = backup::backup_text(alloc, backup)?;
    whole(
        alloc,
        backup::backup_status(backup),
        None,
        None,
        words.as_str(),
    )
}

/// Returns the response to a request that a web page may have sent.
pub fn forbidden_answer(alloc: Global, why: Forbidden) -> Result<Vec<u8>, AllocError>
    ensures { IfOk result (λ text. AnswersForbidden why text.items) }
{
    whole(alloc, 403, None, None, forbidden_text(why))
}

/// Returns the response to a request that breaks a protocol rule.
pub fn refusal(alloc: Global, rule: WireRule) -> Result<Vec<u8>, AllocError> {
    whole(alloc, rule.status(), None, None, "invalid request\n")
}
