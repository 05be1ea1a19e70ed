//! The operation that a path, a method and a body give.
ghost use Rattle.std.specs.Prelude.{IfOk};
ghost use Rattle.wire_body.specs.Body.{words_of};
ghost use Rattle.wire_operation.specs.Asked.{IsReadAs};
ghost use Rattle.wire_operation.specs.Operation.{GivesOperation};

use policy_core::call::{OpKind, Operation};
use std::alloc::{AllocError, Global};
use wire_body::body::{PathWords, read_body};
use wire_body::body_fault::BodyFault;
use wire_route::routes::Routes;

/// Returns the operation of the kind, or `Malformed` if path parameters and body give none.
///
/// Returns `AllocError` if memory runs out.
pub fn read_as(
    alloc: Global,
    kind: OpKind,
    words: &PathWords<'_>,
    body: &[u8],
) -> Result<Operation, AllocError>
    ensures { IfOk result (IsReadAs kind (words_of words.now) body.now) }
{
    match read_body(alloc, kind, words, body) {
        Ok(op) => Ok(op),
        Err(BodyFault::Malformed) => Ok(Operation::Malformed(kind)),
        Err(BodyFault::Memory) => Err(AllocError),
    }
}

/// Returns the operation that a path, a method and a body give, for any caller.
///
/// Returns `AllocError` if memory runs out.
pub fn read_operation(
    alloc: Global,
    routes: &Routes,
    path: &str,
    method: &[u8],
    body: &[u8],
) -> Result<Operation, AllocError>
    ensures { IfOk result (λ op. GivesOperation path.now method.now body.now op) }
{
    let Some(route) = routes.find(path) else {
        return Ok(Operation::NoRoute);
    };
    let Some(kind) = route.endpoint.kind(method) else {
        return Ok(Operation::NoMethod);
    };
    read_as(alloc, kind, &route.words, body)
}
