//! Changes and answers that are prepared before anything is changed.
ghost use Rattle.std.specs.Prelude.{◌≡◌, Some, None, []};

use crate::reply::Answer;
use policy_core::sub_view::EntityIds;
use space_core::space::Change;
use std::alloc::Global;

/// The change of a call that breaks no rule, if there is one, the subscriptions that it notifies,
/// and its answer.
#[derive(Debug, Drop)]
pub struct Prepared {
    pub change: Option<Change>,
    /// The ids of the notified subscriptions, in ascending order. Empty unless an entity changes.
    pub notify: EntityIds,
    pub answer: Answer,
}

impl Prepared {
    /// Creates a `Prepared` that changes nothing.
    pub fn read_only(alloc: Global, answer: Answer) -> Prepared
        ensures change { result.change ≡ None }
        ensures notify { result.notify ≡ [] }
        ensures answer { result.answer ≡ answer }
    {
        Prepared {
            change: None,
            notify: EntityIds::from_vec(Vec::new(alloc)),
            answer,
        }
    }

    /// Creates a `Prepared` with a change that notifies nobody.
    pub fn without_notices(alloc: Global, change: Change, answer: Answer) -> Prepared
        ensures change { result.change ≡ Some change }
        ensures notify { result.notify ≡ [] }
        ensures answer { result.answer ≡ answer }
    {
        Prepared {
            change: Some(change),
            notify: EntityIds::from_vec(Vec::new(alloc)),
            answer,
        }
    }
}
