//! Laws of the policy. Each is the contract of a function that does nothing.
ghost use Rattle.policy_core.specs.Blind.{RulesAreBlind, ViewIsBlind};
ghost use Rattle.policy_core.specs.Known.{MissingIsDenied, PutsKnow};

/// States that a USS's view of an entity that it does not manage does not depend on the OVN.
pub fn view_is_blind()
    ensures { ViewIsBlind }
{}

/// States that the first of P1 to P13, P16 and P17 that a USS's call breaks does not depend on
/// certain OVNs and versions.
///
/// These are the OVNs of entities and the versions of subscriptions that the USS does not manage.
pub fn rules_are_blind()
    ensures { RulesAreBlind }
{}

/// States that the put of an `Accepted` or `Activated` intent that breaks no rule has the OVNs that
/// it needs.
///
/// Its key has the OVN of each other entity that it meets, that it needs to know and that is not
/// exempt.
pub fn puts_know()
    ensures { PutsKnow }
{}

/// States that a call is denied if its key does not have the OVN of an entity that it needs to
/// know.
///
/// One of P1 to P14 and P16 is the first broken rule. If it is P14, the entity is listed.
pub fn missing_is_denied()
    ensures { MissingIsDenied }
{}
