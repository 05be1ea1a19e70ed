//! The ports of a service: who opens them, and the lines that say that they are open.
ghost use Rattle.std.specs.Prelude.{◌≡◌, ◌++◌, IfOk, OnOk, codes, is_some};
ghost use Rattle.std.specs.Io.KnownBytes.{Appends};
ghost use Rattle.std.specs.Net.Text.{socket_text};

use admin_http::build::BuildInfo;
use admin_http::web_page::OwnHosts;
use dss_args::version::{KIT, VERSION};
use server_base::sockets::Sockets;
use std::alloc::{AllocError, Global};
use std::io;
use std::io::Write;
use std::net::SocketAddr;

/// An admin port.
#[derive(Clone, Copy)]
pub struct AdminListener {
    /// Its loopback address and port.
    pub address: SocketAddr,
    /// The time of the service's start, in Unix seconds.
    pub started: u64,
}

/// Prints one line that says that the port of that address is open.
pub fn print_listening<E: Write>(address: SocketAddr, error: &mut E) -> io::Result<()>
    ensures { OnOk result (Appends (E.contents error.old) (E.contents error.new)
        (codes "dss: listening on " ++ (socket_text address ++ codes "\n"))) }
{
    writeln!(error, "dss: listening on {address}")
}

/// Prints one line that says that the admin port of that address is open.
pub fn print_admin_listening<E: Write>(address: SocketAddr, error: &mut E) -> io::Result<()>
    ensures { OnOk result (Appends (E.contents error.old) (E.contents error.new)
        (codes "dss: admin port on " ++ (socket_text address ++ codes "\n"))) }
{
    writeln!(error, "dss: admin port on {address}")
}

/// Prints a line for each open port. A failed print is ignored.
pub(crate) fn print_ports<E: Write>(
    addresses: &[SocketAddr],
    operated: Option<AdminListener>,
    error: &mut E,
) {
    for address in addresses {
        let _ = print_listening(*address, error);
    }
    if let Some(operated) = operated {
        let _ = print_admin_listening(operated.address, error);
    }
}

/// Sockets whose ports are opened once, before they accept a client.
pub trait Listen: Sockets {
    ghost use Rattle.std.specs.Prelude.{◌≡◌};

    /// Opens the ports of these addresses, and the admin port.
    fn listen(&mut self, addresses: &[SocketAddr], operators: Option<SocketAddr>) -> io::Result<()>
        ensures { Self.history self.new ≡ Self.history self.old };

    /// Closes the ports. Clients that were accepted stay connected.
    fn close(&mut self)
        ensures { Self.history self.new ≡ Self.history self.old };
}

/// Returns the build information for the admin port.
pub(crate) fn build_of(
    operated: Option<AdminListener>,
    hosts: &Option<OwnHosts>,
) -> Option<BuildInfo<'_>>
    requires { is_some hosts.now ≡ is_some operated }
    ensures { is_some result ≡ is_some operated }
{
    match (operated, hosts) {
        (Some(operated), Some(hosts)) => Some(BuildInfo {
            started: operated.started,
            version: VERSION,
            kit: KIT,
            hosts,
        }),
        _ => None,
    }
}

/// Returns the values of the field `Host` that name the admin port.
pub(crate) fn hosts_of(
    alloc: Global,
    operated: Option<AdminListener>,
) -> Result<Option<OwnHosts>, AllocError>
    ensures { IfOk result (λ hosts. is_some hosts ≡ is_some operated) }
{
    match operated {
        Some(operated) => Ok(Some(OwnHosts::new(alloc, operated.address.port())?)),
        None => Ok(None),
    }
}

/// Returns the address of the admin port.
pub(crate) fn operators_address(operated: Option<AdminListener>) -> Option<SocketAddr> {
    match operated {
        Some(operated) => Some(operated.address),
        None => None,
    }
}
