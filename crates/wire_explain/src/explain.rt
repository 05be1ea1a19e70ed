//! The explanation of a request.
ghost use Rattle.std.specs.Prelude.{◌≡◌, ◌≤◌, IfOk, OnOk, vec_len};
ghost use Rattle.wire_body.specs.Body.{words_of};
ghost use Rattle.wire_route.specs.Endpoint.{kind_at};
ghost use Rattle.wire_explain.specs.Verdict.{AreProblemsOf, IsFormOf, IsVerdict};

use crate::json::value_in;
use crate::operation::{covered_of, end_of, has_body};
use crate::parameters::check_parameters;
use crate::place::Place;
use crate::problem::Problem;
use crate::put::check_body;
use crate::remark::Remark;
use crate::report::Report;
use crate::verdict::Verdict;
use policy_core::call::{OpKind, Operation};
use policy_core::early::MAX_COVERED_CELLS;
use std::alloc::{AllocError, Global};
use wire_body::body::{PathWords, read_body};
use wire_body::body_fault::BodyFault;
use wire_route::endpoint::Endpoint;
use wire_route::routes::Routes;

/// A request, without its head.
#[derive(Clone, Copy, Debug)]
pub struct Request<'a> {
    pub method: &'a str,
    pub path: &'a str,
    pub body: &'a [u8],
    /// The time of the service in Unix seconds, to say what has ended.
    pub time: Option<u64>,
}

/// The explanation of a request.
#[derive(Debug, Drop)]
pub struct Explanation {
    /// The operation whose form the request has, or the reason why it has none.
    pub verdict: Verdict,
    /// A line for each problem because of which the request has no form. At most 100, and a line
    /// with the number of the others.
    pub problems: Vec<String>,
    /// A line for each member that the service ignores, for cells that cover too much, and for what
    /// has ended. At most 100, and a line with the number of the others.
    pub remarks: Vec<String>,
}

// Returns the explanation of a request without a form.
fn refusal(alloc: Global, verdict: Verdict, report: Report) -> Result<Explanation, AllocError>
    ensures verdict { IfOk result (λ e. e.verdict ≡ verdict) }
    ensures problems { IfOk result (λ e.
        vec_len report.problems.texts ≤ vec_len e.problems) }
{
    let Report {
        problems,
        remarks,
        ignored: _,
        only_names: _,
        alloc: _,
    } = report;
    let problems = problems.into_texts(alloc)?;
    let remarks = remarks.into_texts(alloc)?;
    Ok(Explanation {
        verdict,
        problems,
        remarks,
    })
}

// Returns the explanation with one problem.
fn refusal_for(
    alloc: Global,
    verdict: Verdict,
    place: &str,
    problem: Problem<'_>,
) -> Result<Explanation, AllocError>
    ensures verdict { IfOk result (λ e. e.verdict ≡ verdict) }
    ensures problems { IfOk result (λ e. 1 ≤ vec_len e.problems) }
{
    let mut report = Report::new(alloc);
    report.problem(Place::named(place), problem)?;
    refusal(alloc, verdict, report)
}

// Reports what is wrong with path parameters and a body, and which members are ignored.
fn put_findings(
    alloc: Global,
    report: &mut Report,
    kind: OpKind,
    words: &PathWords<'_>,
    body: &[u8],
) -> Result<(), AllocError> {
    check_parameters(alloc, report, kind, words)?;
    if !has_body(kind) {
        if !body.is_empty() {
            report.remark(Place::body(), Remark::NoBody)?;
        }
        return Ok(());
    }
    match value_in(alloc, report, body)? {
        Some(value) => check_body(alloc, report, kind, &value),
        None => Ok(()),
    }
}

// Reports that something is wrong, if no problem is reported.
fn put_any_problem(report: &mut Report) -> Result<(), AllocError>
    ensures { OnOk result (1 ≤ vec_len report.new.problems.texts) }
{
    if report.problems.is_empty() {
        return report.problem(Place::body(), Problem::Other);
    }
    Ok(())
}

// Returns the explanation of path parameters and a body that give no operation of the kind.
fn explain_malformed(
    alloc: Global,
    kind: OpKind,
    words: &PathWords<'_>,
    body: &[u8],
) -> Result<Explanation, AllocError>
    ensures verdict { IfOk result (λ e. e.verdict ≡ Verdict.Malformed kind) }
    ensures problems { IfOk result (λ e. 1 ≤ vec_len e.problems) }
{
    let mut report = Report::new(alloc);
    put_findings(alloc, &mut report, kind, words, body)?;
    put_any_problem(&mut report)?;
    refusal(alloc, Verdict::Malformed(kind), report)
}

// Remarks on an operation if its cells cover more than is allowed.
fn put_covered(report: &mut Report, op: &Operation) -> Result<(), AllocError> {
    let max = MAX_COVERED_CELLS;
    match covered_of(op) {
        Some((name, found)) if found > max => {
            report.remark(Place::named(name), Remark::Covered { found, max })
        }
        _ => Ok(()),
    }
}

// Remarks on a put if all that it puts has ended by now.
fn put_ended(report: &mut Report, op: &Operation, now: Option<u64>) -> Result<(), AllocError> {
    match (end_of(op), now) {
        (Some(end), Some(now)) if end <= now => {
            report.remark(Place::named("extents"), Remark::Ended { end, now })
        }
        _ => Ok(()),
    }
}

// Returns the explanation of path parameters and a body that give this operation of the kind.
fn explain_form(
    alloc: Global,
    kind: OpKind,
    words: &PathWords<'_>,
    request: &Request<'_>,
    op: &Operation,
) -> Result<Explanation, AllocError>
    ensures verdict { IfOk result (λ e. e.verdict ≡ Verdict.HasForm kind) }
    ensures problems { IfOk result (λ e. vec_len e.problems ≡ 0) }
{
    let mut report = Report::new(alloc);
    // before remarks on members, of which there may be too many
    put_covered(&mut report, op)?;
    put_ended(&mut report, op, request.time)?;
    put_findings(alloc, &mut report, kind, words, request.body)?;
    Ok(Explanation {
        verdict: Verdict::HasForm(kind),
        problems: Vec::new(alloc),
        remarks: report.remarks.into_texts(alloc)?,
    })
}

// Returns the explanation of a request whose path and method lead to operations of the kind.
fn explain_as(
    alloc: Global,
    kind: OpKind,
    words: &PathWords<'_>,
    request: &Request<'_>,
) -> Result<Explanation, AllocError>
    ensures verdict { IfOk result (λ e.
        IsFormOf kind (words_of words.now) request.now.body.now e.verdict) }
    ensures problems { IfOk result (λ e. AreProblemsOf e.verdict (vec_len e.problems)) }
{
    match read_body(alloc, kind, words, request.body) {
        Ok(op) => explain_form(alloc, kind, words, request, &op),
        Err(BodyFault::Malformed) => explain_malformed(alloc, kind, words, request.body),
        Err(BodyFault::Memory) => Err(AllocError),
    }
}

// Returns the kind of operation of a method at an endpoint.
fn kind_at(endpoint: Endpoint, method: &str) -> Option<OpKind>
    ensures { result ≡ kind_at endpoint method.now }
{
    endpoint.kind(method.as_bytes())
}

/// Explains a request: which operation it has the form of, or each problem for which the service
/// denies it by P1, P2 or P5, and what the service ignores.
///
/// There is a problem exactly if the service's own reader finds no operation. The texts are only
/// tested.
pub fn explain_request(
    alloc: Global,
    routes: &Routes,
    request: &Request<'_>,
) -> Result<Explanation, AllocError>
    ensures verdict { IfOk result (λ e.
        IsVerdict request.now.path.now request.now.method.now request.now.body.now e.verdict) }
    ensures problems { IfOk result (λ e. AreProblemsOf e.verdict (vec_len e.problems)) }
{
    let Some(route) = routes.find(request.path) else {
        return refusal_for(alloc, Verdict::NoRoute, "path", Problem::NoRoute);
    };
    let Some(kind) = kind_at(route.endpoint, request.method) else {
        let problem = Problem::NoMethod(route.endpoint.allow());
        return refusal_for(alloc, Verdict::NoMethod(route.endpoint), "method", problem);
    };
    explain_as(alloc, kind, &route.words, request)
}

/// Returns the members of a body that the service ignores in an operation of the kind, as the value
/// of a list field (RFC 9110, section 5.6.1): at most 1,024 bytes of visible ASCII and spaces.
/// Returns an empty text if there are none.
pub fn ignored_members(alloc: Global, kind: OpKind, body: &[u8]) -> Result<String, AllocError> {
    let mut report = Report::of_names(alloc);
    if has_body(kind) {
        if let Some(value) = value_in(alloc, &mut report, body)? {
            check_body(alloc, &mut report, kind, &value)?;
        }
    }
    report.ignored.into_text()
}
