//! The request context, the same for all clients.
use std::alloc::Global;
use token_conf::token_table::TokenTable;
use wire_http::Explaining;
use wire_route::routes::Routes;

/// The routes and tokens from which requests are answered, and whether responses have explanations.
#[derive(Clone, Copy)]
pub struct RequestContext<'a> {
    pub alloc: Global,
    pub routes: &'a Routes,
    pub tokens: &'a TokenTable,
    pub explaining: Explaining,
}
