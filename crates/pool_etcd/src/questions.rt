//! Questions for the end of the log.
ghost use Rattle.std.specs.Prelude.{◌≡◌, ◌+◌, ◌<◌, ◌≤◌, ◌↔◌, IsTrue, IsSome, IfSome, IfNone};
ghost use Rattle.pool_etcd.specs.Questions.{IsOrdered};

/// The questions for the end of the log, by their numbers from 1 on.
///
/// The answer of etcd to a request is one to all questions that were asked before it was sent.
#[derive(Clone, Copy, Debug, PartialEq, Eq)]
pub struct Questions {
    /// The last question.
    pub asked: u64,
    /// The last question that was asked before the last request was sent.
    pub sent: u64,
    /// The last question for which etcd has returned the revision of the end.
    pub known: u64,
    /// The revision of the end that etcd returned last.
    pub revision: u64,
    /// The last question that has its answer.
    pub answered: u64,
}

impl Questions {
    /// Creates the questions before the first one.
    pub fn new() -> Questions
        ensures ordered { IsOrdered result }
        ensures none { result.asked ≡ 0 }
    {
        Questions {
            asked: 0,
            sent: 0,
            known: 0,
            revision: 0,
            answered: 0,
        }
    }

    /// Asks a question, and returns its number, if there is a number left.
    pub fn ask(&mut self) -> Option<u64>
        ensures next { IfSome result (λ question. question ≡ self.old.asked + 1) }
        ensures asked { IfSome result
            (λ question. self.new ≡ record self.old { asked = question }) }
        ensures none { IfNone result (self.new ≡ self.old) }
        ensures ordered { IsOrdered self.old → IsOrdered self.new }
    {
        let question = self.asked.checked_add(1)?;
        self.asked = question;
        Some(question)
    }

    /// Returns true if a question needs a request.
    pub fn is_due(&self) -> bool
        ensures { IsTrue result ↔ (self.now.known < self.now.asked) }
    {
        self.known < self.asked
    }

    /// Records that a request is sent.
    pub fn send(&mut self)
        ensures sent { self.new ≡ record self.old { sent = self.old.asked } }
        ensures ordered { IsOrdered self.old → IsOrdered self.new }
    {
        self.sent = self.asked;
    }

    /// Records the revision of the end that the last request returned.
    pub fn learn(&mut self, revision: u64)
        ensures learned { self.new
            ≡ record self.old { known = self.old.sent; revision = revision } }
        ensures ordered { IsOrdered self.old → IsOrdered self.new }
    {
        self.known = self.sent;
        self.revision = revision;
    }

    /// Returns the next question that can be answered, if the log was received up to a revision.
    pub fn answer(&mut self, reached: u64) -> Option<u64>
        ensures next { IfSome result (λ question. question ≡ self.old.answered + 1) }
        ensures known { IfSome result (λ question. question ≤ self.old.known) }
        ensures reached { IfSome result (λ _. self.old.revision ≤ reached) }
        ensures answered { IfSome result
            (λ question. self.new ≡ record self.old { answered = question }) }
        ensures none { IfNone result (self.new ≡ self.old) }
        ensures ordered { IsOrdered self.old → IsOrdered self.new }
    {
        if self.answered >= self.known || self.revision > reached {
            return None;
        }
        self.answered += 1;
        Some(self.answered)
    }
}
