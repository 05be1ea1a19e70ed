//! The plain policy: the same calls, one after the other, over a space in memory.
use crate::journal::Answered;
use crate::record::Noted;
use crate::shared::Shared;
use crate::tokens::text_at;
use entity_core::salt::Salt;
use service_calls::service::Service;
use service_step::reply::Reply;
use space_memory::memory::MemorySpace;
use std::alloc::{AllocError, Global};
use token_conf::token_table::TokenTable;
use wire_http::{Connection, Explaining, NextStep};
use wire_route::routes::Routes;

/// The plain policy, with one connection for each client.
#[derive(Drop)]
pub(crate) struct Reference<'a> {
    alloc: Global,
    routes: &'a Routes,
    /// The token tables.
    pub(crate) tables: Vec<TokenTable>,
    salt: Salt,
    explaining: Explaining,
    service: Service<MemorySpace>,
    /// The connections, by name.
    pub(crate) connections: Vec<Connection>,
    // The names of the clients, in the order in which they were accepted.
    names: Vec<usize>,
}

// Returns both token tables.
fn tables(alloc: Global) -> Option<Vec<TokenTable>> {
    let mut tables = Vec::new(alloc);
    for index in 0..2 {
        let table = TokenTable::read(alloc, text_at(index)).ok()?;
        tables.push(table).ok()?;
    }
    Some(tables)
}

// Makes the next call of a connection at this time.
fn advance(
    connection: &mut Connection,
    alloc: Global,
    routes: &Routes,
    service: &mut Service<MemorySpace>,
    tokens: &TokenTable,
    moment: u64,
    explaining: Explaining,
) -> Option<()> {
    if connection.is_done() || connection.is_waiting() {
        return None;
    }
    match connection.next(alloc, routes, tokens) {
        Ok(NextStep::Request(next)) => {
            let reply = service.call(alloc, moment, next.call());
            let texts = connection.texts_for_reply(
                alloc, explaining, routes, &next, moment, &reply,
            );
            connection.draft(alloc, next, texts, &reply).ok()
        }
        Ok(NextStep::Ended(_)) => Some(()),
        Ok(NextStep::NeedsInput) | Err(_) => None,
    }
}

impl<'a> Reference<'a> {
    /// Creates a plain policy for so many clients, with an empty airspace.
    pub(crate) fn new(
        alloc: Global,
        routes: &'a Routes,
        salt: &Salt,
        explaining: Explaining,
        clients: usize,
    ) -> Option<Reference<'a>> {
        let mut connections = Vec::new(alloc);
        for _ in 0..clients {
            connections.push(Connection::new(alloc)).ok()?;
        }
        Some(Reference {
            alloc,
            routes,
            tables: tables(alloc)?,
            salt: salt.clone().ok()?,
            explaining,
            service: Service::new(MemorySpace::new(alloc), salt.clone().ok()?),
            connections,
            names: Vec::new(alloc),
        })
    }

    /// Returns the connection of that name, and a token table.
    pub(crate) fn connection_and_table(
        &mut self,
        name: usize,
        table: usize,
    ) -> Option<(&mut Connection, &TokenTable)> {
        let connection = self.connections.get_mut(name)?;
        let tokens = self.tables.get(table)?;
        Some((connection, tokens))
    }

    // Takes in an event of the sockets.
    fn take(&mut self, event: &Noted) -> Option<()> {
        match event {
            Noted::Accepted(name) => self.names.push(*name).ok(),
            Noted::Received(name, bytes) => {
                let connection = self.connections.get_mut(*name)?;
                if bytes.len() > connection.remaining_capacity() {
                    return None;
                }
                connection.receive(bytes.as_slice()).ok()
            }
            Noted::ReceivedEnd(_) | Noted::Sent(_, _) => Some(()),
        }
    }

    /// Takes in all events of the sockets.
    pub(crate) fn take_all(&mut self, events: &[Noted]) -> Option<()> {
        for event in events {
            self.take(event)?;
        }
        Some(())
    }

    // Makes the next call of a client. `executed` is false if its changes were lost.
    fn make(&mut self, name: usize, answered: &Answered, executed: bool) -> Option<()> {
        let connection = self.connections.get_mut(name)?;
        let tokens = self.tables.get(answered.table)?;
        if answered.is_stopping {
            connection.limit_to_one_request();
        }
        if executed {
            return advance(
                connection,
                self.alloc,
                self.routes,
                &mut self.service,
                tokens,
                answered.moment,
                self.explaining,
            );
        }
        let mut spare = Service::new(MemorySpace::new(self.alloc), self.salt.clone().ok()?);
        advance(
            connection,
            self.alloc,
            self.routes,
            &mut spare,
            tokens,
            answered.moment,
            self.explaining,
        )
    }

    /// Makes the call of an answered request. The response is that of a fault if its status is 500.
    pub(crate) fn answer(&mut self, answered: &Answered) -> Option<()> {
        let name = *self.names.get(answered.connection)?;
        let executed = answered.status != 500;
        self.make(name, answered, executed)?;
        let connection = self.connections.get_mut(name)?;
        if executed {
            connection.release();
            return Some(());
        }
        connection.resolve(self.alloc, &Reply::Fault).ok()
    }

    /// Returns the name of the client of a connection.
    pub(crate) fn name_of(&self, connection: usize) -> Option<usize> {
        Some(*self.names.get(connection)?)
    }

    /// Returns the space.
    pub(crate) fn space(&mut self) -> &mut MemorySpace {
        self.service.space()
    }
}
