//! JSON values of bytes.
ghost use Rattle.std.specs.Prelude.{◌≡◌, IfOk, IfErr};
ghost use Rattle.serde_json.specs.Data.{Data};
ghost use Rattle.serde_json.specs.View.{view};
ghost use Rattle.pool_etcd.specs.Given.{IsJson};

use crate::response_fault::ResponseFault;
use serde_json::Value;
use serde_json::error::Category;
use std::alloc::Global;

/// Parses bytes as a JSON value.
pub(crate) fn json_of(alloc: Global, bytes: &[u8]) -> Result<Value, ResponseFault>
    ensures ok { IfOk result (λ v. IsJson bytes.now (view v)) }
    ensures not_json { IfErr result (λ e. e ≡ ResponseFault.NotJson
        → (d : Data) → IsJson bytes.now d → ⊥) }
    ensures known { IfErr result (λ e. e ≡ ResponseFault.Unexpected → ⊥) }
{
    match Value::from_slice(alloc, bytes) {
        Ok(value) => Ok(value),
        Err(e) => Err(if e.classify() == Category::Memory {
            ResponseFault::Memory
        } else {
            ResponseFault::NotJson
        }),
    }
}
