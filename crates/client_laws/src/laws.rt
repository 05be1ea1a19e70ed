//! Laws of what clients are sent. Each is the contract of a function that does nothing.
ghost use Rattle.client_laws.specs.Blind.{ClientsAreBlind};
ghost use Rattle.client_laws.specs.RealTime.{ResponsesAreInRealTime};

use database_backend::database::Database;
use server_backend::backend::Backend;
use server_watch::token_watch::TokenSource;
use space_core::purge_ended::PurgeEnded;
use space_snapshot::snapshot::SnapshotSource;
use wire_http::Moments;

/// States that a response of which a byte was sent is earlier in the list of calls than each request
/// that came later, of any client.
///
/// So the order of the list is the order that clients can observe.
pub fn responses_are_in_real_time<
    S: PurgeEnded + SnapshotSource + Drop,
    M: Moments,
    T: TokenSource,
>()
    ensures { ResponsesAreInRealTime S.GroupCommit.own ⟦<Database<S> as Backend>⟧ M.Moments
        T.TokenSource }
{}

/// States that a client of a USS is sent the same bytes in two executions that differ only in OVNs
/// and versions that the USS does not know.
///
/// The executions begin in airspaces that are alike to the USS, and have the same calls in the same
/// order, of which the same ones failed. The client makes the same requests, all by the USS, at the
/// same places. Explanations are off, and no purge is visible.
pub fn clients_are_blind<S: PurgeEnded + SnapshotSource + Drop, M: Moments, T: TokenSource>()
    ensures { ClientsAreBlind S.GroupCommit.own ⟦<Database<S> as Backend>⟧ M.Moments T.TokenSource }
{}
