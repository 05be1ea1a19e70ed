//! Laws of routes. Each is the contract of a function that does nothing.
ghost use Rattle.std.specs.Prelude.{◌≡◌, ℕ, List, codes};
ghost use Rattle.entity_core.specs.declared.nature.Kind.TheVariants.{Intent, Constraint};
ghost use Rattle.wire_body.specs.Body.{Words};
ghost use Rattle.wire_route.specs.declared.endpoint.Endpoint.{Endpoint};
ghost use Rattle.wire_route.specs.declared.endpoint.Endpoint.TheVariants.{Query, Entity, EntityAtOvn, Availability, SubscriptionQuery, Subscription, SubscriptionAtVersion};
ghost use Rattle.wire_route.specs.Endpoint.{allow_of};
ghost use Rattle.wire_route.specs.Route.{one_parameter, two_parameters, IsRoute, HasNoRoute};

/// States that a path leads to at most one endpoint, with one list of parameters.
pub fn one_route()
    ensures { (path : List ℕ) (p q : Endpoint) (v w : Words)
        → IsRoute path p v → IsRoute path q w → (q ≡ p) × (w ≡ v) }
{}

/// States where some paths lead: `quer` and `queryx` may be ids, and `query` may be an OVN or a
/// version.
pub fn sample_paths()
    ensures intents { IsRoute (codes "/dss/v1/operational_intent_references/query")
        (Query Intent) (one_parameter (codes "query")) }
    ensures intent { IsRoute (codes "/dss/v1/operational_intent_references/a1")
        (Entity Intent) (one_parameter (codes "a1")) }
    ensures intent_at { IsRoute (codes "/dss/v1/operational_intent_references/a1/o1")
        (EntityAtOvn Intent) (two_parameters (codes "a1") (codes "o1")) }
    ensures constraints { IsRoute (codes "/dss/v1/constraint_references/query")
        (Query Constraint) (one_parameter (codes "query")) }
    ensures constraint { IsRoute (codes "/dss/v1/constraint_references/c1")
        (Entity Constraint) (one_parameter (codes "c1")) }
    ensures constraint_at { IsRoute (codes "/dss/v1/constraint_references/c1/o1")
        (EntityAtOvn Constraint) (two_parameters (codes "c1") (codes "o1")) }
    ensures uss { IsRoute (codes "/dss/v1/uss_availability/query")
        Availability (one_parameter (codes "query")) }
    ensures shorter { IsRoute (codes "/dss/v1/operational_intent_references/quer")
        (Entity Intent) (one_parameter (codes "quer")) }
    ensures longer { IsRoute (codes "/dss/v1/operational_intent_references/queryx")
        (Entity Intent) (one_parameter (codes "queryx")) }
    ensures as_ovn { IsRoute (codes "/dss/v1/operational_intent_references/a1/query")
        (EntityAtOvn Intent) (two_parameters (codes "a1") (codes "query")) }
    ensures subscriptions { IsRoute (codes "/dss/v1/subscriptions/query")
        SubscriptionQuery (one_parameter (codes "query")) }
    ensures subscription { IsRoute (codes "/dss/v1/subscriptions/d1")
        Subscription (one_parameter (codes "d1")) }
    ensures subscription_at { IsRoute (codes "/dss/v1/subscriptions/d1/o1")
        SubscriptionAtVersion (two_parameters (codes "d1") (codes "o1")) }
    ensures as_version { IsRoute (codes "/dss/v1/subscriptions/d1/query")
        SubscriptionAtVersion (two_parameters (codes "d1") (codes "query")) }
{}

/// States that some paths lead to no endpoint.
pub fn sample_gaps()
    ensures past_query { HasNoRoute (codes "/dss/v1/operational_intent_references/query/x") }
    ensures no_ovn { HasNoRoute (codes "/dss/v1/operational_intent_references/a1/") }
    ensures no_word { HasNoRoute (codes "/dss/v1/operational_intent_references/") }
    ensures no_slash { HasNoRoute (codes "/dss/v1/operational_intent_references") }
    ensures three_words { HasNoRoute (codes "/dss/v1/operational_intent_references/a1/o1/x") }
    ensures no_supplier { HasNoRoute (codes "/dss/v1/uss_availability/") }
    ensures two_suppliers { HasNoRoute (codes "/dss/v1/uss_availability/a/b") }
    ensures past_subscription_query { HasNoRoute (codes "/dss/v1/subscriptions/query/x") }
    ensures no_version { HasNoRoute (codes "/dss/v1/subscriptions/d1/") }
    ensures no_subscription { HasNoRoute (codes "/dss/v1/subscriptions/") }
    ensures three_subscription_words { HasNoRoute (codes "/dss/v1/subscriptions/d1/o1/x") }
    ensures one_subscription { HasNoRoute (codes "/dss/v1/subscription/d1") }
    ensures other { HasNoRoute (codes "/dss/v1/reports/a") }
    ensures no_front { HasNoRoute (codes "dss/v1/uss_availability/a") }
{}

/// States which methods some endpoints allow, as in the field Allow.
pub fn allowed()
    ensures query { allow_of (Query Intent) ≡ codes "POST" }
    ensures entity { allow_of (Entity Constraint) ≡ codes "GET, PUT" }
    ensures at { allow_of (EntityAtOvn Intent) ≡ codes "PUT, DELETE" }
    ensures uss { allow_of Availability ≡ codes "GET, PUT" }
    ensures subscriptions { allow_of SubscriptionQuery ≡ codes "POST" }
    ensures subscription { allow_of Subscription ≡ codes "GET, PUT" }
    ensures subscription_at { allow_of SubscriptionAtVersion ≡ codes "PUT, DELETE" }
{}
