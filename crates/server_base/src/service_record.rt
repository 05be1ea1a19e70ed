//! How responses and aborted connections are counted and logged.
use crate::response_info::ResponseInfo;
use crate::server_log::{LoggedRequest, ServerLog};
use admin_http::connections::ConnectionFailure;
use admin_http::requests::ResponseRecord;
use admin_http::service_metrics::ServiceMetrics;
use std::time::Duration;
use wire_http::{RequestInfo, StreamFault};

/// Returns the metric under which a fault counts.
pub fn failure_of(fault: StreamFault) -> ConnectionFailure {
    match fault {
        StreamFault::Read => ConnectionFailure::Read,
        StreamFault::Write => ConnectionFailure::Write,
        StreamFault::Clock => ConnectionFailure::Clock,
        StreamFault::Memory => ConnectionFailure::Memory,
        StreamFault::Turns => ConnectionFailure::Turns,
    }
}

/// Counts and logs a response with this status. `connection` is the number of its connection,
/// `noted` the request that it answers, and `took` the time since the request was complete, if they
/// are known.
pub fn record_answer<J: ServerLog>(
    metrics: &mut ServiceMetrics,
    answer: ResponseInfo,
    status: u16,
    connection: u64,
    noted: Option<&RequestInfo>,
    took: Option<Duration>,
    journal: &mut J,
) {
    metrics.requests.note(&ResponseRecord {
        operation: answer.operation,
        denial: answer.denial(),
        status,
        size: answer.size,
        took,
    });
    if let Some(noted) = noted {
        if let Some(supplier) = &noted.supplier {
            metrics.suppliers.note(supplier.text(), status);
        }
        journal.request_answered(&LoggedRequest {
            connection,
            noted,
            status,
            size: answer.size,
            took,
        });
    }
}
