//! Scopes of tokens.
ghost use Rattle.std.specs.Prelude.{◌≡◌, MatchOption};
ghost use Rattle.policy_core.specs.Scope.{scope_name, has_scope, no_scopes, with_scope};

use entity_core::uss_id::UssId;
use std::marker::Model;

/// A permission of a token.
///
/// The names are those of ASTM F3548's scopes in this project's profile.
#[derive(Clone, Copy, Debug, PartialEq, Eq)]
pub enum Scope {
    StrategicCoordination,
    ConformanceMonitoring,
    ConstraintProcessing,
    ConstraintManagement,
    AvailabilityArbitration,
}

impl Scope {
    ghost use Rattle.policy_core.specs.Scope.{scope_name};

    /// Returns the scope with this name, or `None` if no scope has it.
    ///
    /// Names are case-sensitive.
    pub fn named(name: &str) -> Option<Scope>
        ensures { MatchOption result ((s : Scope) → scope_name s ≡ name.now → ⊥)
            (λ s. scope_name s ≡ name.now) }
    {
        match name {
            "utm.strategic_coordination" => Some(Scope::StrategicCoordination),
            "utm.conformance_monitoring_sa" => Some(Scope::ConformanceMonitoring),
            "utm.constraint_processing" => Some(Scope::ConstraintProcessing),
            "utm.constraint_management" => Some(Scope::ConstraintManagement),
            "utm.availability_arbitration" => Some(Scope::AvailabilityArbitration),
            _ => None,
        }
    }
}

/// A set of scopes.
///
/// Contracts see for each scope whether it is in the set.
#[derive(Clone, Copy, Debug, PartialEq, Eq)]
pub struct ScopeSet {
    strategic_coordination: bool,
    conformance_monitoring: bool,
    constraint_processing: bool,
    constraint_management: bool,
    availability_arbitration: bool,
}

impl Model for ScopeSet {
    ghost use Rattle.policy_core.specs.Scope.{Scopes};

    ghost Value = { Scopes };

    ghost view = { λ a. record {
      strategic_coordination = a.strategic_coordination;
      conformance_monitoring = a.conformance_monitoring;
      constraint_processing = a.constraint_processing;
      constraint_management = a.constraint_management;
      availability_arbitration = a.availability_arbitration;
    } };

    ghost inverse = { λ s. record {
      strategic_coordination = s.strategic_coordination;
      conformance_monitoring = s.conformance_monitoring;
      constraint_processing = s.constraint_processing;
      constraint_management = s.constraint_management;
      availability_arbitration = s.availability_arbitration;
    } };
}

impl ScopeSet {
    ghost use Rattle.policy_core.specs.Scope.{has_scope, no_scopes, with_scope};

    /// Returns the empty set.
    pub fn empty() -> ScopeSet
        ensures { result ≡ no_scopes }
    {
        ScopeSet {
            strategic_coordination: false,
            conformance_monitoring: false,
            constraint_processing: false,
            constraint_management: false,
            availability_arbitration: false,
        }
    }

    /// Returns the set with one more scope.
    pub fn with(self, scope: Scope) -> ScopeSet
        ensures { result ≡ with_scope self scope }
    {
        let mut scopes = self;
        match scope {
            Scope::StrategicCoordination => scopes.strategic_coordination = true,
            Scope::ConformanceMonitoring => scopes.conformance_monitoring = true,
            Scope::ConstraintProcessing => scopes.constraint_processing = true,
            Scope::ConstraintManagement => scopes.constraint_management = true,
            Scope::AvailabilityArbitration => scopes.availability_arbitration = true,
        }
        scopes
    }

    /// Returns true if the set has the scope.
    pub fn has(self, scope: Scope) -> bool
        ensures { result ≡ has_scope self scope }
    {
        match scope {
            Scope::StrategicCoordination => self.strategic_coordination,
            Scope::ConformanceMonitoring => self.conformance_monitoring,
            Scope::ConstraintProcessing => self.constraint_processing,
            Scope::ConstraintManagement => self.constraint_management,
            Scope::AvailabilityArbitration => self.availability_arbitration,
        }
    }
}

/// The caller of an operation: a USS, with the scopes of its token.
#[derive(Debug, Drop)]
pub struct Caller {
    pub uss: UssId,
    pub scopes: ScopeSet,
}
