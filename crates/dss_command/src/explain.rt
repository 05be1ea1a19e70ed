//! The command `explain`: prints what is wrong with a request, and which of its members are ignored.
ghost use Rattle.std.specs.Prelude.{◌≡◌, IfErr, IfOk, IfSome};
ghost use Rattle.wire_head.specs.Target.{path_of};
ghost use Rattle.wire_explain.specs.Verdict.{rule_of};
ghost use Rattle.dss_command.specs.Explain.{EndsExplain, EndsReading, end_by};
ghost use Rattle.dss_command.specs.declared.fault.Fault.TheVariants.{Output};

use crate::fault::{Fault, io_fault};
use crate::token_files::put_lines;
use std::alloc::Global;
use std::io::{Read, Write};
use wire_explain::explain::{Explanation, Request, explain_request};
use wire_explain::operation::name_of;
use wire_explain::verdict::Verdict;
use wire_head::target::path_of;
use wire_route::routes::Routes;

// The maximum length of a body that the service reads.
const MAX_BODY_BYTES: usize = 1_048_576;

// Reads a body to its end, if it is within the maximum.
fn body_in<R: Read>(alloc: Global, input: &mut R) -> Result<Vec<u8>, Fault>
    ensures body { IfOk result (λ body. IfSome (R.remaining input.old)
        (λ rest. body.items ≡ rest)) }
    ensures fault { IfErr result (EndsReading (R.remaining input.old)) }
{
    let mut body = Vec::new(alloc);
    // one above the maximum, to detect too many
    if let Err(cause) = input.take(1_048_577).read_to_end(&mut body) {
        return Err(io_fault(&cause, Fault::RequestsUnread));
    }
    if body.len() > MAX_BODY_BYTES {
        return Err(Fault::BodyTooLong);
    }
    Ok(body)
}

fn write_lines<W: Write>(explanation: &Explanation, output: &mut W) -> Result<(), Fault> {
    put_lines(explanation.problems.as_slice(), output)?;
    put_lines(explanation.remarks.as_slice(), output)?;
    if let Verdict::HasForm(kind) = explanation.verdict {
        let name = name_of(kind);
        if writeln!(output, "the request has the form of {name}").is_err() {
            return Err(Fault::Output);
        }
    }
    Ok(())
}

// Prints the lines of an explanation, and that a request has a form.
fn put_explanation<W: Write>(explanation: &Explanation, output: &mut W) -> Result<(), Fault>
    ensures { IfErr result (λ fault. fault ≡ Output) }
{
    match write_lines(explanation, output) {
        Ok(()) => Ok(()),
        Err(_) => Err(Fault::Output),
    }
}

// Returns how the command ends after a verdict.
fn end_by(verdict: Verdict) -> Result<(), Fault>
    ensures { result ≡ end_by (rule_of verdict) }
{
    match verdict.rule() {
        Some(rule) => Err(Fault::Request(rule)),
        None => Ok(()),
    }
}

/// Runs the command `explain` on a request whose body is the rest of the input: prints a line for
/// each problem and for each ignored member, and a line if the request has the form of an
/// operation. Otherwise ends with the rule that denies it.
pub fn explain<R: Read, W: Write>(
    alloc: Global,
    method: &str,
    target: &str,
    now: Option<u64>,
    input: &mut R,
    output: &mut W,
) -> Result<(), Fault>
    ensures { EndsExplain (path_of target.now) method.now (R.remaining input.old) result }
{
    let body = body_in(alloc, input)?;
    let request = Request {
        method,
        path: path_of(target),
        body: body.as_slice(),
        time: now,
    };
    let Ok(routes) = Routes::new(alloc) else {
        return Err(Fault::Memory);
    };
    let Ok(explanation) = explain_request(alloc, &routes, &request) else {
        return Err(Fault::Memory);
    };
    put_explanation(&explanation, output)?;
    end_by(explanation.verdict)
}
