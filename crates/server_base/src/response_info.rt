//! What a response says of its request, for metrics and logs.
use admin_http::requests::Denial;
use policy_core::call::OpKind;
use wire_http::Outcome;

/// A response, and the request that it answers.
#[derive(Clone, Copy, Debug, PartialEq, Eq)]
pub struct ResponseInfo {
    /// The requested operation, if the request names one.
    pub operation: Option<OpKind>,
    /// The outcome of the request.
    pub outcome: Outcome,
    /// The size of the response in bytes.
    pub size: usize,
}

impl ResponseInfo {
    /// Returns its status.
    pub fn status(&self) -> u16 {
        match self.outcome {
            Outcome::Done => match self.operation {
                Some(OpKind::Create(_)) => 201,
                _ => 200,
            },
            Outcome::Denied(rule) => rule.status(),
            Outcome::Fault => 500,
            Outcome::Stopped => 503,
            Outcome::Wire(rule) => rule.status(),
        }
    }

    /// Returns the rule that denied the request, if any.
    pub fn denial(&self) -> Option<Denial> {
        match self.outcome {
            Outcome::Denied(rule) => Some(Denial::Policy(rule)),
            Outcome::Wire(rule) => Some(Denial::Wire(rule)),
            Outcome::Done | Outcome::Fault | Outcome::Stopped => None,
        }
    }

    /// Returns true if the request was for a change.
    pub fn is_to_change(&self) -> bool {
        match self.operation {
            Some(
                OpKind::Create(_)
                | OpKind::Update(_)
                | OpKind::Delete(_)
                | OpKind::SetAvail
                | OpKind::CreateSub
                | OpKind::UpdateSub
                | OpKind::DeleteSub,
            ) => true,
            Some(
                OpKind::Query(_)
                | OpKind::Read(_)
                | OpKind::ReadAvail
                | OpKind::QuerySub
                | OpKind::ReadSub,
            )
            | None => false,
        }
    }
}
