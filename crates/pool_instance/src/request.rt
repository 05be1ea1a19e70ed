//! Requests that were received whole.
ghost use Rattle.std.specs.Prelude.{◌≡◌, ◌+◌, ◌≤◌, length, IfOk};
ghost use Rattle.pool_entry.specs.Calls.{operation_of};

use crate::fault::RequestFault;
use entity_core::text::Text;
use policy_core::call::{Call, Operation};
use policy_core::scope::Caller;
use pool_entry::bytes::Bytes;
use pool_entry::pool_call::PoolCall;
use std::alloc::{AllocError, Global};
use wire_operation::operation::read_operation;
use wire_route::routes::Routes;

/// The maximum number of bytes of a method and a path together.
pub const MAX_HEAD: usize = 8192;

/// The maximum number of bytes of a body.
pub const MAX_BODY: usize = 1_048_576;

/// A request with its call. It fits in an entry.
#[derive(Debug, Drop)]
pub struct Request {
    call: Call,
    method: Bytes,
    path: Text,
    body: Bytes,
    ghost gives: { call.op ≡ operation_of path method body },
    ghost head: { length method + length path ≤ 8192 },
    ghost size: { length body ≤ 1048576 },
}

impl Request {
    ghost use Rattle.std.specs.Prelude.{[], ◌∷◌, ◌<◌, Some, IsErrOf, ◌⊎◌, true};
    ghost use Rattle.pool_entry.specs.Spelling.{IsBatch};
    ghost use Rattle.pool_instance.specs.Request.{call_of, call_from, written_at};
    ghost use Rattle.pool_instance.specs.declared.fault.RequestFault.TheVariants.{TooLong};

    /// Makes a request of a caller, with the call that its parts give.
    ///
    /// Returns `TooLong` only if it is too long for an entry, or `NoMemory` if memory runs out.
    pub fn new(
        alloc: Global,
        routes: &Routes,
        caller: Option<Caller>,
        method: Bytes,
        path: Text,
        body: Bytes,
    ) -> Result<Request, RequestFault>
        ensures call { IfOk result (λ r. call_of r ≡ call_from caller path method body) }
        ensures long { IsErrOf result TooLong
            → (8192 < length method + length path) ⊎ (1048576 < length body) }
    {
        let head = method.as_slice().len();
        let target = path.text().len();
        if target > MAX_HEAD || head > MAX_HEAD - target || body.as_slice().len() > MAX_BODY {
            return Err(RequestFault::TooLong);
        }
        let read = operation_of(
            alloc,
            routes,
            path.text(),
            method.as_slice(),
            body.as_slice(),
        );
        let Ok(op) = read else {
            return Err(RequestFault::NoMemory);
        };
        Ok(Request {
            call: Call { caller, op },
            method,
            path,
            body,
        })
    }

    /// Returns the call.
    pub fn call(&self) -> &Call
        ensures { result.now ≡ call_of self.now }
    {
        &self.call
    }

    /// Returns the call as an entry represents it, made by this caller at this time.
    ///
    /// Returns `AllocError` if memory runs out.
    pub(crate) fn written(
        &self,
        alloc: Global,
        caller: &Caller,
        now: u64,
    ) -> Result<PoolCall, AllocError>
        requires { (call_of self.now).caller ≡ Some caller.now }
        ensures is { IfOk result (λ written. Some written ≡ written_at now self.now) }
        ensures fits { IfOk result (λ written. IsBatch (written ∷ [])) }
    {
        let _name = caller.uss.text();
        let _path = self.path.text();
        let _method = self.method.as_slice();
        let _body = self.body.as_slice();
        let caller = Caller {
            uss: caller.uss.clone()?,
            scopes: caller.scopes,
        };
        Ok(PoolCall {
            moment: now,
            caller,
            method: Bytes::copy(alloc, self.method.as_slice())?,
            path: self.path.clone()?,
            body: Bytes::copy(alloc, self.body.as_slice())?,
        })
    }
}

// Returns the operation that a path, a method and a body give.
fn operation_of(
    alloc: Global,
    routes: &Routes,
    path: &str,
    method: &[u8],
    body: &[u8],
) -> Result<Operation, AllocError>
    ensures { IfOk result (λ op. op ≡ operation_of path.now method.now body.now) }
{
    read_operation(alloc, routes, path, method, body)
}
