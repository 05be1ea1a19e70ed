//! Laws of the events of a server over a database. Each is the contract of a function that does
//! nothing.
ghost use Rattle.database_laws.specs.OneList.{CallsOfClientsAreOneList};
ghost use Rattle.database_laws.specs.Responses.{ClientsGetThePolicy};

use database_backend::database::Database;
use server_backend::backend::Backend;
use server_clients::laws::each_client_is_served;
use server_watch::token_watch::TokenSource;
use space_core::purge_ended::PurgeEnded;
use space_snapshot::snapshot::SnapshotSource;
use wire_http::Moments;

/// States that the service executed exactly the calls of the requests that the backend received,
/// in one order for all clients, and that each client was sent the texts of the replies of its
/// calls.
///
/// Each call was checked against the active token table, was made at a time of the clock, and is in
/// a batch that ended. Purges ran between batches, up to times of the clock less the retention. A
/// call that is denied before its body is read counts as the one that its body represents: both get
/// the same reply, and change nothing.
pub fn calls_of_clients_are_one_list<
    S: PurgeEnded + SnapshotSource + Drop,
    M: Moments,
    T: TokenSource,
>()
    ensures { CallsOfClientsAreOneList S.Space S.GroupCommit.own ⟦<Database<S> as Backend>⟧
        M.Moments T.TokenSource }
{
    each_client_is_served::<Database<S>, M, T>();
}

/// States that what all clients were sent, and what may be sent, is the texts of the replies of the
/// policy, each at the place of its request in one list of calls.
///
/// So the bytes that a client gets follow from the list of calls, the purges between its batches,
/// and the outcomes of the commits. A text is missing only if memory ran out for it, and as long as
/// no outcome was given for its request.
pub fn clients_get_the_policy<S: PurgeEnded + SnapshotSource + Drop, M: Moments, T: TokenSource>()
    ensures { ClientsGetThePolicy S.Space S.GroupCommit.own ⟦<Database<S> as Backend>⟧
        M.Moments T.TokenSource }
{
    each_client_is_served::<Database<S>, M, T>();
}
