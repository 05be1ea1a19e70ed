//! Laws of the events of a server, for any backend. Each is the contract of a function that does
//! nothing.
ghost use Rattle.server_clients.specs.Backends.{EventsAreTheBackends};
ghost use Rattle.server_clients.specs.CallOrder.{RequestsAreAskedInOrder};
ghost use Rattle.server_clients.specs.Clients.{EachClientIsServed};
ghost use Rattle.server_clients.specs.Replies.{TextsAreOfReplies};
ghost use Rattle.server_clients.specs.Waits.{WaitsAtMost};

use server_backend::backend::Backend;
use server_watch::token_watch::TokenSource;
use wire_http::Moments;

/// States that the events of a server are, for its backend, a list of events.
///
/// So each law of a backend holds of what a server does with it.
pub fn events_are_the_backends<B: Backend, M: Moments, T: TokenSource>()
    ensures { EventsAreTheBackends B.Backend M.Moments T.TokenSource }
{}

/// States that what each client was sent, and what may be sent, is the texts of the outcomes for
/// its requests, in order, each once.
///
/// No byte of a draft is among them before its outcome.
pub fn each_client_is_served<B: Backend, M: Moments, T: TokenSource>()
    ensures { EachClientIsServed B.Backend M.Moments T.TokenSource }
{}

/// States that the requests of a client that the backend received are the first in the bytes of the
/// client, in order, each once.
pub fn requests_are_asked_in_order<B: Backend, M: Moments, T: TokenSource>()
    ensures { RequestsAreAskedInOrder B.Backend M.Moments T.TokenSource }
{}

/// States that the text of each response is that of the reply that the backend gave to its request.
///
/// So a law of a backend about its replies is one about what clients are sent.
pub fn texts_are_of_replies<B: Backend, M: Moments, T: TokenSource>()
    ensures { TextsAreOfReplies B.Backend M.Moments T.TokenSource }
{}

/// States how often the clients of another class are picked while a class may be next.
///
/// It is at most one more than the difference of their virtual times in least charges. So how long a
/// USS waits depends on what it was charged before, and not on how many requests others make.
pub fn waits_at_most()
    ensures { WaitsAtMost }
{}
