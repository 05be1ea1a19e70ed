//! Laws of the rounds of a server, for any backend. Each is the contract of a function that does
//! nothing.
ghost use Rattle.server.specs.Rounds.{RoundsAreSettled};

use server_backend::backend::Backend;
use server_watch::token_watch::TokenSource;
use wire_http::Moments;

/// States that after the last request of each round its batch ends, and all outcomes are given.
///
/// So no response is deferred when `serve` returns, and a law of a backend about events that end
/// with a batch holds of what the server did with it.
pub fn rounds_are_settled<B: Backend, M: Moments, T: TokenSource>()
    ensures { RoundsAreSettled B.Backend M.Moments T.TokenSource }
{}
