//! One stream of requests, with one time for all calls.
ghost use Rattle.std.specs.Prelude.{◌≡◌, ◌⊎◌, IfErr, IfOk, OnOk};
ghost use Rattle.token_conf.specs.TokenFile.{salt_of};
ghost use Rattle.wire_http.specs.Counted.{inner_of};
ghost use Rattle.dss_command.specs.Stream.{ServesAt, ServesEmpty, ServesOver, ServesPartAt, ServesPartOver};
ghost use Rattle.dss_command.specs.declared.fault.Fault.TheVariants.{Memory};

use crate::fault::Fault;
use entity_core::salt::Salt;
use service_calls::service::Service;
use space_core::space::Space;
use space_memory::memory::MemorySpace;
use std::alloc::Global;
use std::io::{Read, Write};
use token_conf::token_table::TokenTable;
use wire_http::{Counted, FixedClock, Served, serve_stream};
use wire_route::routes::Routes;

/// Serves one stream, each call at the time `now`: executes and answers the requests of the input,
/// as `serve_stream` does.
///
/// After a fault, the first bytes of the responses were written. If memory ran out for the routes,
/// nothing was read, executed or written.
pub fn serve_at<S: Space + Drop, R: Read, W: Write>(
    alloc: Global,
    service: &mut Service<S>,
    tokens: &TokenTable,
    now: u64,
    reader: &mut Counted<R>,
    writer: &mut Counted<W>,
) -> Result<Served, Fault>
    ensures serves { IfOk result (ServesAt S.Space tokens.now now
        (R.remaining (inner_of reader.old))
        (W.contents (inner_of writer.old)) (W.contents (inner_of writer.new))
        service.old service.new) }
    ensures part { IfErr result (λ fault.
        ((fault ≡ Memory) × (service.new ≡ service.old) × (reader.new ≡ reader.old)
        × (writer.new ≡ writer.old))
        ⊎ ServesPartAt S.Space tokens.now now (R.remaining (inner_of reader.old))
        (W.contents (inner_of writer.old)) (W.contents (inner_of writer.new))
        service.old service.new fault) }
{
    let Ok(routes) = Routes::new(alloc) else {
        return Err(Fault::Memory);
    };
    let mut clock = FixedClock::new(now);
    match serve_stream(alloc, &routes, service, tokens, &mut clock, reader, writer) {
        Ok(served) => Ok(served),
        Err(fault) => Err(Fault::from(fault)),
    }
}

/// Serves one stream with a new service over a space, and returns the space as it then is. After a
/// fault, the first bytes of the responses were written, as with `serve_at`.
pub fn serve_stream_over<S: Space + Drop, R: Read, W: Write>(
    alloc: Global,
    space: S,
    salt: Salt,
    tokens: &TokenTable,
    now: u64,
    reader: &mut Counted<R>,
    writer: &mut Counted<W>,
) -> (Result<(), Fault>, S)
    requires { salt ≡ salt_of tokens.now }
    ensures served { OnOk result.0 (ServesOver S.Space tokens.now now
        (R.remaining (inner_of reader.old))
        (W.contents (inner_of writer.old)) (W.contents (inner_of writer.new)) space result.1) }
    ensures part { IfErr result.0 (ServesPartOver S.Space tokens.now now
        (R.remaining (inner_of reader.old))
        (W.contents (inner_of writer.old)) (W.contents (inner_of writer.new)) space result.1) }
{
    let mut service = Service::new(space, salt);
    match serve_at(alloc, &mut service, tokens, now, reader, writer) {
        Ok(_) => (Ok(()), service.into_space()),
        Err(fault) => (Err(fault), service.into_space()),
    }
}

/// Runs the command `run` without a database: serves one stream over an empty airspace in memory.
pub fn serve_in_memory<R: Read, W: Write>(
    alloc: Global,
    salt: Salt,
    tokens: &TokenTable,
    now: u64,
    reader: &mut Counted<R>,
    writer: &mut Counted<W>,
) -> Result<(), Fault>
    requires { salt ≡ salt_of tokens.now }
    ensures { OnOk result (ServesEmpty ⟦<MemorySpace as Space>⟧ tokens.now now
        (R.remaining (inner_of reader.old))
        (W.contents (inner_of writer.old)) (W.contents (inner_of writer.new))) }
{
    let space = MemorySpace::new(alloc);
    let (done, _) = serve_stream_over(alloc, space, salt, tokens, now, reader, writer);
    done
}
