//! Laws of the calls that the bytes of a stream represent.
ghost use Rattle.std.specs.Prelude.{◌≡◌, ◌++◌, ℕ, Bool, List, [], Option, codes, false};
ghost use Rattle.httparse.specs.Grammar.{RequestHead};
ghost use Rattle.policy_core.specs.declared.call.Call.{Call};
ghost use Rattle.policy_core.specs.declared.reference.Missing.{Missing};
ghost use Rattle.policy_core.specs.declared.rule.Rule.{Rule};
ghost use Rattle.service_step.specs.declared.reply.Reply.{Reply};
ghost use Rattle.token_conf.specs.TokenFile.{Callers};
ghost use Rattle.wire_operation.specs.Asked.{IsCallOf};
ghost use Rattle.wire_http.specs.Connection.{deferred_of, holds_back, output_of, ready_of};
ghost use Rattle.wire_http.specs.Laws.{OneStream};
ghost use Rattle.wire_http.specs.Requests.{DraftIsATurn, EndIsAnEnd, InputIsAwaited, LossIsAPart};
ghost use Rattle.wire_http.specs.Requests.{NoRequestIsAPart, NoTimeIsAPart};
ghost use Rattle.service_step.specs.declared.reply.Answer.{Answer};
ghost use Rattle.wire_http.specs.declared.connection.Connection.{Connection};
ghost use Rattle.service_step.specs.declared.reply.Reply.TheVariants.{Done, Denied, Fault, Stopped};
ghost use Rattle.wire_http.specs.Text.{ignored_field, message, noted_text, response_text};
ghost use Rattle.wire_reply.specs.Answer.{reply_text, status_of};
ghost use Rattle.wire_http.specs.Wire.{IsRequest};
ghost use Rattle.wire_head.specs.Rest.{Kind, IsKind, AreSame};
ghost use Rattle.wire_head.specs.Target.{path_of};
ghost use Rattle.wire_reply.specs.Explained.{is_explained};
ghost use Rattle.wire_route.specs.declared.endpoint.Endpoint.{Endpoint};

use crate::moments::Moments;
use space_core::space::Space;
use wire_reply::explained::adds_nothing_else;

/// States that a rest is of only one kind.
///
/// If it breaks the grammar and also has too many fields, either of the two kinds is right.
pub fn one_kind()
    ensures { (rest : List ℕ) (j k : Kind) → IsKind rest j → IsKind rest k → AreSame rest j k }
{}

/// States that a rest has at most one next request.
pub fn one_request()
    ensures { (rest : List ℕ) (h k : RequestHead) (a b : List ℕ)
        → IsRequest rest h a → IsRequest rest k b → (k ≡ h) × (b ≡ a) }
{}

/// States that a request makes at most one call, at one endpoint.
pub fn one_call()
    ensures { (callers : Callers) (h : RequestHead) (body : List ℕ) (a b : Option Endpoint)
        (c d : Call)
        → IsCallOf callers h body a c → IsCallOf callers h body b d → (b ≡ a) × (d ≡ c) }
{}

/// States that the path of a target ends before its first question mark, for one sample.
pub fn sample_path()
    ensures { path_of (codes "/a?b?c") ≡ codes "/a" }
{}

/// States that the bytes of a stream represent one list of calls, and one end, if a clock gives one
/// time in each state.
///
/// If the rest breaks the grammar and also has too many fields, either of the two rules is right.
pub fn one_stream<M: Moments>()
    ensures { OneStream M.gives }
{}

/// States that a connection does what a stream does. A request that `Connection::next` returned,
/// whose call was made at the next time of the clock, and whose response `Connection::draft`
/// deferred, is one turn of a stream. If the response, the time or the request is lost, the turn is
/// aborted. Without a complete request nothing is done, and an end is that of a stream.
pub fn requests_are_turns<S: Space, M: Moments>()
    ensures drafts { (callers : Callers) → DraftIsATurn S.Space M.gives callers }
    ensures losses { (callers : Callers) → LossIsAPart S.Space M.gives callers }
    ensures clocks { (callers : Callers) → NoTimeIsAPart S.Space M.gives callers }
    ensures memory { (callers : Callers) → NoRequestIsAPart S.Space M.gives callers }
    ensures input { (callers : Callers) → InputIsAwaited S.Space M.gives callers }
    ensures ends { (callers : Callers) → EndIsAnEnd S.Space M.gives callers }
{}

/// States that the bytes that may be sent come first among the unsent ones.
///
/// They are all unsent bytes if no response is deferred.
pub fn what_may_be_sent()
    ensures first { (c : Connection) → ready_of c ++ deferred_of c ≡ output_of c }
    ensures all { (c : Connection) → holds_back c ≡ false → ready_of c ≡ output_of c }
{}

/// States what texts add to a response. Without texts it is that of the policy. A denial by another
/// rule than P1, P2, P5, P6 and P13, a fault and a stop are those of the policy with any texts. A
/// success has the status and the body of the policy, and at most one more field.
pub fn adds_only_texts()
    ensures no_texts { (endpoint : Option Endpoint) (closing : Bool) (reply : Reply)
        → noted_text [] endpoint closing reply ≡ response_text endpoint closing reply }
    ensures denials { (notes : List (List ℕ)) (endpoint : Option Endpoint) (closing : Bool)
        (rule : Rule) (missing : Missing) → is_explained rule ≡ false
        → noted_text notes endpoint closing (Denied rule missing)
        ≡ response_text endpoint closing (Denied rule missing) }
    ensures fault { (notes : List (List ℕ)) (endpoint : Option Endpoint) (closing : Bool)
        → noted_text notes endpoint closing Fault ≡ response_text endpoint closing Fault }
    ensures stopped { (notes : List (List ℕ)) (endpoint : Option Endpoint) (closing : Bool)
        → noted_text notes endpoint closing Stopped ≡ response_text endpoint closing Stopped }
    ensures successes { (notes : List (List ℕ)) (endpoint : Option Endpoint) (closing : Bool)
        (answer : Answer) → noted_text notes endpoint closing (Done answer)
        ≡ message (status_of (Done answer)) (ignored_field notes) closing
        (reply_text (Done answer)) }
{
    adds_nothing_else();
}
