//! Calls that are evaluated against the airspace.

use entity_core::salt::Salt;
use policy_core::call::Call;
use policy_core::scope::Caller;

/// A call that breaks no stateless rule, with its time, its caller and the salt of new OVNs and
/// versions.
#[derive(Clone, Copy)]
pub struct Admitted<'c> {
    pub salt: &'c Salt,
    pub moment: u64,
    pub call: &'c Call,
    pub caller: &'c Caller,
}
