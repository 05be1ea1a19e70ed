//! The line of a request in the access log.
ghost use Rattle.std.specs.Prelude.{◌≡◌, IfOk};
ghost use Rattle.std.specs.String.{string_bytes};
ghost use Rattle.dss_command.specs.LogLine.{IsLogLine, IsMoment, entity_text, how, log_line, microseconds_text, rule_text, uss_text, what, who};

use admin_http::operation::operation_name;
use entity_core::entity_id::EntityId;
use entity_core::uss_id::UssId;
use jiff_core::Timestamp;
use jiff_fmt::temporal::DateTimePrinter;
use server_base::server_log::LoggedRequest;
use std::alloc::{AllocError, Global};
use std::time::Duration;
use wire_http::Outcome;

// Returns the time in UTC with milliseconds, or `-` if it is unknown.
fn time_text(alloc: Global, moment: Option<Timestamp>) -> Result<String, AllocError>
    ensures { IfOk result (λ text. IsMoment moment (string_bytes text)) }
{
    match moment {
        Some(moment) => {
            let printer = DateTimePrinter::new().precision(Some(3));
            String::from_str(alloc, printer.timestamp_text(moment).as_str())
        }
        None => String::from_str(alloc, "-"),
    }
}

// Returns the id of a USS, as printed.
fn uss_text(supplier: &Option<UssId>) -> &str
    ensures { result.now ≡ uss_text supplier.now }
{
    match supplier {
        Some(uss) => uss.text(),
        None => "-",
    }
}

// Returns the id of an entity or a subscription, as printed.
fn entity_text(alloc: Global, entity: Option<EntityId>) -> Result<String, AllocError>
    ensures { IfOk result (λ text. string_bytes text ≡ entity_text entity) }
{
    match entity {
        Some(id) => id.text(alloc),
        None => String::from_str(alloc, "-"),
    }
}

// Returns the rule that denied the request, such as `P4` or `H2`.
fn rule_text(alloc: Global, outcome: Outcome) -> Result<String, AllocError>
    ensures { IfOk result (λ text. string_bytes text ≡ rule_text outcome) }
{
    match outcome {
        Outcome::Denied(rule) => {
            let number = rule.number();
            format!(in alloc; "P{number}")
        }
        Outcome::Wire(rule) => {
            let number = rule.number();
            format!(in alloc; "H{number}")
        }
        Outcome::Done | Outcome::Fault | Outcome::Stopped => String::from_str(alloc, "-"),
    }
}

// Returns a duration in whole microseconds.
fn microseconds_text(alloc: Global, took: Option<Duration>) -> Result<String, AllocError>
    ensures { IfOk result (λ text. string_bytes text ≡ microseconds_text took) }
{
    match took {
        Some(took) => {
            let count = took.as_micros();
            format!(in alloc; "{count}")
        }
        None => String::from_str(alloc, "-"),
    }
}

// Returns the time and the caller of a request.
#[tactic(auto, unfolding(crate::specs::LogLine::who))]
fn who(alloc: Global, time: &str, connection: u64, supplier: &str) -> Result<String, AllocError>
    ensures { IfOk result (λ text. string_bytes text ≡ who time.now connection supplier.now) }
{
    format!(in alloc; "time={time} connection={connection} supplier={supplier}")
}

// Returns the operation, the entity and the status of a request.
#[tactic(auto, unfolding(crate::specs::LogLine::what))]
fn what(alloc: Global, operation: &str, entity: &str, status: u16) -> Result<String, AllocError>
    ensures { IfOk result (λ text. string_bytes text ≡ what operation.now entity.now status) }
{
    format!(in alloc; " operation={operation} entity={entity} status={status}")
}

// Returns the rule that denied a request, with its duration and size.
#[tactic(auto, unfolding(crate::specs::LogLine::how))]
fn how(alloc: Global, rule: &str, took: &str, size: usize) -> Result<String, AllocError>
    ensures { IfOk result (λ text. string_bytes text ≡ how rule.now took.now size) }
{
    format!(in alloc; " rule={rule} microseconds={took} bytes={size}\n")
}

// Returns the line of a request that was answered at that time.
#[tactic(auto, unfolding(crate::specs::LogLine::log_line))]
fn line_at(alloc: Global, time: &str, request: &LoggedRequest<'_>) -> Result<String, AllocError>
    ensures { IfOk result (λ line. string_bytes line ≡ log_line time.now request.now) }
{
    let noted = request.noted;
    let supplier = uss_text(&noted.supplier);
    let entity = entity_text(alloc, noted.entity)?;
    let rule = rule_text(alloc, noted.outcome)?;
    let took = microseconds_text(alloc, request.took)?;
    let operation = operation_name(noted.operation);
    let mut line = who(alloc, time, request.connection, supplier)?;
    line.push_str(what(alloc, operation, entity.as_str(), request.status)?.as_str())?;
    line.push_str(how(alloc, rule.as_str(), took.as_str(), request.size)?.as_str())?;
    Ok(line)
}

/// Returns the line of a request that was answered at that time, with its line end. It has no part
/// of a token, of an OVN or of a body.
pub(crate) fn log_line(
    alloc: Global,
    moment: Option<Timestamp>,
    request: &LoggedRequest<'_>,
) -> Result<String, AllocError>
    ensures { IfOk result (λ line. IsLogLine moment request.now (string_bytes line)) }
{
    let time = time_text(alloc, moment)?;
    line_at(alloc, time.as_str(), request)
}
