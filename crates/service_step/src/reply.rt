//! Replies to calls.
ghost use Rattle.std.specs.Prelude.{◌≡◌};

use entity_core::availability::Availability;
use entity_core::nature::Kind;
use entity_core::text::Text;
use entity_core::uss_id::UssId;
use policy_core::reference::{Missing, Reference, References};
use policy_core::rule::Rule;
use policy_core::sub_view::{SubView, SubViews};
use service_notify::notice::Notices;

/// The answer to a call that broke no rule.
#[derive(Debug, Drop)]
pub enum Answer {
    /// An entity was created: its reference, and the notices of the subscriptions that this
    /// notifies.
    Created(Reference, Notices),
    /// An entity was updated or deleted: its reference after the update or before the deletion, and
    /// the notices.
    Changed(Reference, Notices),
    /// The reference of an entity.
    Found(Reference),
    /// The references of the entities of a kind that meet an area, ordered by id.
    Listed(Kind, References),
    /// The availability of a USS, and the version of its last setting. The version is empty if it
    /// was never set.
    Avail(UssId, Availability, Text),
    /// A subscription was stored: its view, and the references of the intents and of the
    /// constraints that it is for and that meet its volume. Both are ordered by id.
    SubStored(SubView, References, References),
    /// The view of a subscription, as it is now or as it was before its deletion.
    SubFound(SubView),
    /// The caller's subscriptions that meet an area, ordered by id.
    SubListed(SubViews),
}

/// The reply to a call.
#[derive(Debug, Drop)]
pub enum Reply {
    /// The call broke no rule and had its effect.
    Done(Answer),
    /// The call broke this rule first, and changed nothing. References are missing only if the rule
    /// is P14.
    Denied(Rule, Missing),
    /// The call failed and changed nothing: memory ran out, or the space failed.
    Fault,
    /// The service has stopped: the content of its space is unknown.
    Stopped,
}

impl Reply {
    ghost use Rattle.service_step.specs.Reply.{is_stopped};

    /// Returns true if the service has stopped.
    pub fn is_stopped(&self) -> bool
        ensures { result ≡ is_stopped self.now }
    {
        match self {
            Reply::Stopped => true,
            _ => false,
        }
    }
}
