//! The bytes of a call.
ghost use Rattle.std.specs.Prelude.{◌≡◌, ◌∷◌, [], ◌++◌, OnOk, IfOk};
ghost use Rattle.policy_core.specs.Scope.{has_scope};
ghost use Rattle.pool_entry.specs.Spelling.{IsCall, call_text, counted_text, flag, number_text, scopes_text};

use crate::pool_call::PoolCall;
use itoa::Buffer;
use policy_core::scope::{Scope, ScopeSet};
use std::alloc::{AllocError, Global};

/// The first line of a batch, with the version of the format.
pub(crate) const HEADER: &[u8] = b"dss-batch 1\n";

/// The first line of a purge, with the version of the format.
pub(crate) const PURGE_HEADER: &[u8] = b"dss-purge 1\n";

/// Adds a number and the byte that ends it.
pub(crate) fn push_number(out: &mut Vec<u8>, last: u8, n: u64) -> Result<(), AllocError>
    ensures { OnOk result (out.new.items ≡ out.old.items ++ number_text last n) }
{
    let mut buffer = Buffer::new();
    out.extend_from_slice(buffer.format(n).as_bytes())?;
    out.push(last)?;
    Ok(())
}

fn push_counted(out: &mut Vec<u8>, last: u8, text: &[u8]) -> Result<(), AllocError>
    ensures { OnOk result (out.new.items ≡ out.old.items ++ counted_text last text.now) }
{
    push_number(out, b':', text.len() as u64)?;
    out.extend_from_slice(text)?;
    out.push(last)?;
    Ok(())
}

// Returns the letter of a scope if the set has it, or `-`.
fn flag_of(scopes: ScopeSet, scope: Scope, letter: u8) -> u8
    ensures { result ≡ flag letter (has_scope scopes scope) }
{
    if scopes.has(scope) { letter } else { b'-' }
}

fn push_scopes(out: &mut Vec<u8>, scopes: ScopeSet) -> Result<(), AllocError>
    ensures { OnOk result (out.new.items ≡ out.old.items ++ scopes_text scopes) }
{
    let text = [
        flag_of(scopes, Scope::StrategicCoordination, b's'),
        flag_of(scopes, Scope::ConformanceMonitoring, b'm'),
        flag_of(scopes, Scope::ConstraintProcessing, b'p'),
        flag_of(scopes, Scope::ConstraintManagement, b'c'),
        flag_of(scopes, Scope::AvailabilityArbitration, b'a'),
        b' ',
    ];
    out.extend_from_slice(&text)?;
    Ok(())
}

/// Returns the bytes of a call.
///
/// Returns `AllocError` if memory runs out.
pub(crate) fn call_bytes(alloc: Global, call: &PoolCall) -> Result<Vec<u8>, AllocError>
    ensures text { IfOk result (λ bytes. bytes.items ≡ call_text call.now) }
    ensures fits { IfOk result (λ bytes. IsCall call.now) }
{
    let mut out = Vec::new(alloc);
    push_number(&mut out, b' ', call.moment)?;
    push_counted(&mut out, b' ', call.caller.uss.text().as_bytes())?;
    push_scopes(&mut out, call.caller.scopes)?;
    push_counted(&mut out, b' ', call.method.as_slice())?;
    push_counted(&mut out, b' ', call.path.text().as_bytes())?;
    push_counted(&mut out, b'\n', call.body.as_slice())?;
    Ok(out)
}
