//! The command `self`: one stream of requests through a loopback socket.
ghost use Rattle.std.specs.Prelude.{◌≡◌};
ghost use Rattle.token_conf.specs.TokenFile.{salt_of};

use crate::tokens::token_table;
use dss_command::fault::{Fault, io_fault};
use dss_command::print::put;
use dss_command::stream::serve_in_memory;
use dss_command::tokens::salt_of;
use entity_core::salt::Salt;
use std::fs::File;
use std::io;
use std::io::{Read, Write};
use std::net::{Ipv4Addr, Shutdown, TcpListener, TcpStream};
use token_conf::token_table::TokenTable;
use wire_http::Counted;

// The maximum number of bytes sent in either direction. A socket buffers that many until they are
// read.
const MAX_REQUEST_BYTES: usize = 16_384;

/// The arguments of the command `self`.
#[derive(Clone, Copy)]
pub(crate) struct SelfArgs<'a> {
    /// The name of the token file.
    pub(crate) tokens: &'a str,
    /// The time of each request, in Unix seconds.
    pub(crate) now: u64,
    /// The name of the file of requests; `-` is standard input.
    pub(crate) request: &'a str,
}

// Reads the bytes of a reader, if they are within the maximum.
fn few_bytes<R: Read>(rt: &HostRuntime, input: &mut R) -> Result<Vec<u8>, Fault> {
    let mut bytes = Vec::new(rt.alloc());
    // one above the maximum, to detect too many
    match input.take(16_385).read_to_end(&mut bytes) {
        Ok(_) => {}
        Err(cause) => return Err(io_fault(&cause, Fault::RequestsUnread)),
    }
    if bytes.len() > MAX_REQUEST_BYTES {
        return Err(Fault::RequestTooLong);
    }
    Ok(bytes)
}

// Reads the bytes of the file of requests, or of standard input.
fn request_bytes<R: Read>(rt: &HostRuntime, name: &str, input: &mut R) -> Result<Vec<u8>, Fault> {
    if name == "-" {
        return few_bytes(rt, input);
    }
    match File::open(rt, name) {
        Ok(mut file) => few_bytes(rt, &mut file),
        Err(cause) => Err(io_fault(&cause, Fault::RequestsUnread)),
    }
}

// Returns the two ends of a connection of this program to itself. The first has sent these bytes
// and sends no more.
fn connect_self(rt: &HostRuntime, request: &[u8]) -> io::Result<(TcpStream, TcpStream)> {
    let listener = TcpListener::bind(rt, (Ipv4Addr::LOCALHOST, 0))?;
    let mut client = TcpStream::connect(rt, listener.local_addr()?)?;
    client.write_all(request)?;
    client.shutdown(Shutdown::Write)?;
    let (server, _) = listener.accept()?;
    Ok((client, server))
}

// Sends bytes from one end, and returns what arrived at the other.
fn sent_back(
    rt: &HostRuntime,
    bytes: &[u8],
    server: &mut TcpStream,
    client: &mut TcpStream,
) -> io::Result<Vec<u8>> {
    server.write_all(bytes)?;
    server.shutdown(Shutdown::Write)?;
    let mut came = Vec::new(rt.alloc());
    client.read_to_end(&mut came)?;
    Ok(came)
}

// Returns the responses to requests that are sent through a socket to a service over an empty
// airspace.
fn answers_to(
    rt: &HostRuntime,
    tokens: &TokenTable,
    salt: Salt,
    now: u64,
    request: &[u8],
) -> Result<Vec<u8>, Fault>
    requires { salt ≡ salt_of tokens.now }
{
    let (mut client, mut server) = match connect_self(rt, request) {
        Ok(ends) => ends,
        Err(cause) => return Err(io_fault(&cause, Fault::Socket)),
    };
    let mut answers = Vec::new(rt.alloc());
    let mut reader = Counted::new(&mut server);
    let mut writer = Counted::new(&mut answers);
    serve_in_memory(rt.alloc(), salt, tokens, now, &mut reader, &mut writer)?;
    if answers.len() > MAX_REQUEST_BYTES {
        return Err(Fault::AnswerTooLong);
    }
    match sent_back(rt, answers.as_slice(), &mut server, &mut client) {
        Ok(came) => Ok(came),
        Err(cause) => Err(io_fault(&cause, Fault::Socket)),
    }
}

/// Runs the command.
pub(crate) fn loop_back<R: Read, W: Write>(
    rt: &HostRuntime,
    given: &SelfArgs<'_>,
    input: &mut R,
    output: &mut W,
) -> Result<(), Fault> {
    let tokens = token_table(rt, given.tokens)?;
    let request = request_bytes(rt, given.request, input)?;
    let salt = salt_of(&tokens)?;
    let came = answers_to(rt, &tokens, salt, given.now, request.as_slice())?;
    put(came.as_slice(), output)
}
