//! The routes of the service, and the lookup of the endpoint of a path.
ghost use Rattle.std.specs.Prelude.{◌≡◌, ◌++◌, List, ℕ, false, codes, IfOk, OnOk, MatchOption, option_map, if◌then◌else◌, Some, None};
ghost use Rattle.wire_body.specs.Body.{Words, words_of};
ghost use Rattle.wire_route.specs.Route.{has_slash, is_part, may_be_id, one_parameter, AreTwoWords, AreWordsOf, IsRoute, HasNoRoute};
ghost use Rattle.wire_route.specs.Endpoint.{front_of};
ghost use Rattle.wire_route.specs.Table.{Fits, table, with_route, named_endpoint};

use crate::endpoint::Endpoint;
use entity_core::nature::Kind;
use matchit::{InsertError, Router};
use std::alloc::{AllocError, Global};
use std::marker::Model;
use wire_body::body::PathWords;

/// The routes of the service, prepared for lookups.
#[derive(Drop)]
pub struct Routes {
    router: Router<Endpoint>,
}

impl Model for Routes {
    ghost use Rattle.std.specs.Prelude.{◌≡◌};
    ghost use Rattle.wire_route.specs.Table.{table};

    ghost Value = { Unit {0} };

    ghost view = { λ _. tt };

    ghost invariant = { λ r. r.router ≡ table };
}

/// An endpoint, and the parameters of a path there.
#[derive(Clone, Copy, Debug)]
pub struct Route<'p> {
    pub endpoint: Endpoint,
    pub words: PathWords<'p>,
}

// Adds the route of an endpoint. It conflicts with no other, so that only an allocation can fail.
#[tactic(auto, unfolding(crate::specs::Table::with_route, crate::specs::Table::Fits))]
fn put(router: &mut Router<Endpoint>, endpoint: Endpoint) -> Result<(), AllocError>
    requires { Fits endpoint router.old }
    ensures { OnOk result (router.new ≡ with_route endpoint router.old) }
{
    match router.insert(endpoint.route_pattern(), endpoint) {
        Ok(()) => Ok(()),
        Err(InsertError::OutOfMemory) => Err(AllocError),
        Err(_) => unreachable!(),
    }
}

fn has_slash(text: &str) -> bool
    ensures { result ≡ has_slash text.now }
{
    text.as_bytes().iter().any(|b| *b == b'/')
}

fn is_part(text: &str) -> bool
    ensures { result ≡ is_part text.now }
{
    !text.is_empty() && !has_slash(text)
}

fn may_be_id(text: &str) -> bool
    ensures { result ≡ may_be_id text.now }
{
    is_part(text) && text != "query"
}

// Returns the only parameter of a path, if `is_right` is true.
fn one_parameter(word: &str, is_right: bool) -> Option<PathWords<'_>>
    ensures { option_map words_of result
        ≡ (if is_right then Some (one_parameter word.now) else None) }
{
    if is_right {
        Some(PathWords {
            first: word,
            second: None,
        })
    } else {
        None
    }
}

// Splits a text at its first slash.
fn halves(rest: &str) -> Option<(&str, &str)>
    ensures { MatchOption result (has_slash rest.now ≡ false)
        (λ half. (rest.now ≡ half.0.now ++ (codes "/" ++ half.1.now))
        × (has_slash half.0.now ≡ false)) }
{
    rest.split_once('/')
}

// Returns the two parameters: a segment that may be an id, and another segment.
fn two_parameters(rest: &str) -> Option<PathWords<'_>>
    ensures { MatchOption result ((words : Words) → AreTwoWords rest.now words → ⊥)
        (λ words. AreTwoWords rest.now (words_of words)) }
{
    let Some((id, ovn)) = halves(rest) else {
        return None;
    };
    if !may_be_id(id) {
        return None;
    }
    if !is_part(ovn) {
        return None;
    }
    Some(PathWords {
        first: id,
        second: Some(ovn),
    })
}

// Returns the parameters after the prefix of the endpoint's paths.
fn parameters_at(endpoint: Endpoint, rest: &str) -> Option<PathWords<'_>>
    ensures { MatchOption result ((words : Words) → AreWordsOf endpoint rest.now words → ⊥)
        (λ words. AreWordsOf endpoint rest.now (words_of words)) }
{
    match endpoint {
        Endpoint::Query(_) => one_parameter(rest, rest == "query"),
        Endpoint::Entity(_) => one_parameter(rest, may_be_id(rest)),
        Endpoint::EntityAtOvn(_) => two_parameters(rest),
        Endpoint::Availability => one_parameter(rest, is_part(rest)),
        Endpoint::SubscriptionQuery => one_parameter(rest, rest == "query"),
        Endpoint::Subscription => one_parameter(rest, may_be_id(rest)),
        Endpoint::SubscriptionAtVersion => two_parameters(rest),
    }
}

impl Routes {
    /// Creates the routes. Fails only if memory runs out.
    pub fn new(alloc: Global) -> Result<Routes, AllocError> {
        let mut router = Router::new(alloc);
        put(&mut router, Endpoint::Query(Kind::Intent))?;
        put(&mut router, Endpoint::Entity(Kind::Intent))?;
        put(&mut router, Endpoint::EntityAtOvn(Kind::Intent))?;
        put(&mut router, Endpoint::Query(Kind::Constraint))?;
        put(&mut router, Endpoint::Entity(Kind::Constraint))?;
        put(&mut router, Endpoint::EntityAtOvn(Kind::Constraint))?;
        put(&mut router, Endpoint::Availability)?;
        put(&mut router, Endpoint::SubscriptionQuery)?;
        put(&mut router, Endpoint::Subscription)?;
        put(&mut router, Endpoint::SubscriptionAtVersion)?;
        Ok(Routes { router })
    }

    // Returns the endpoint to which the router leads a path.
    fn endpoint_at(&self, path: &str) -> Option<Endpoint>
        ensures { result ≡ named_endpoint path.now }
    {
        match self.router.at(path) {
            Ok(found) => Some(*found.value),
            Err(_) => None,
        }
    }

    /// Finds the endpoint of a path, and the parameters there.
    ///
    /// Compares paths byte by byte and decodes nothing in them (this project's profile).
    pub fn find<'p>(&self, path: &'p str) -> Option<Route<'p>>
        ensures { MatchOption result (HasNoRoute path.now)
            (λ route. IsRoute path.now route.endpoint (words_of route.words)) }
    {
        let Some(endpoint) = self.endpoint_at(path) else {
            return None;
        };
        let Some(rest) = path.strip_prefix(endpoint.path_prefix()) else {
            return None;
        };
        let Some(words) = parameters_at(endpoint, rest) else {
            return None;
        };
        Some(Route { endpoint, words })
    }
}
