//! The settings of a log over etcd.
ghost use Rattle.std.specs.Prelude.{◌≡◌, IfOk};
ghost use Rattle.std.specs.String.{string_bytes};
ghost use Rattle.pool_etcd.specs.Settings.{settings_message, settings_number, settings_numbers};

use pool_chain::chain::Chain;
use sha2::{Digest, Sha256};
use std::alloc::{AllocError, Global};
use std::net::SocketAddr;

/// The number of the policy by which this release does the calls and purges of a log.
///
/// Raise it in each release that does any of them differently from the one before: another reply,
/// or another airspace after it. Instances with other numbers share no log.
pub const POLICY: u64 = 2;

/// A user of etcd.
#[derive(Drop)]
pub struct User {
    pub name: String,
    pub password: String,
}

/// The settings of a log over etcd.
#[derive(Drop)]
pub struct EtcdSettings {
    /// The addresses of members of etcd, in the order in which they are tried.
    pub endpoints: Vec<SocketAddr>,
    /// The user, if etcd asks for one.
    pub user: Option<User>,
    /// The name of this instance. It writes under `in/NAME`.
    pub name: String,
    /// The number of this process, which no other has or had.
    pub number: u64,
    /// The log is given from the first change behind this revision on.
    pub revision: u64,
    /// The number of entries up to there.
    pub count: u64,
    /// The chain over all changes up to there.
    pub chain: Chain,
    /// The number that all instances of a pool have in common: `settings_number` of the policy, of
    /// the airspace at the beginning of the log, and of the pool's salt.
    pub agreed: u64,
    /// That number of the pool, if it is known. Otherwise the first fence behind the revision
    /// tells it.
    pub pool: Option<u64>,
}

// Returns the numbers of settings as a text.
fn settings_numbers(alloc: Global, policy: u64, beginning: u64) -> Result<String, AllocError>
    ensures { IfOk result (λ text. string_bytes text ≡ settings_numbers policy beginning) }
{
    format!(in alloc; "{policy} {beginning}")
}

// Returns the bytes whose digest gives the number of settings.
fn settings_message(
    alloc: Global,
    policy: u64,
    beginning: u64,
    salt: &str,
) -> Result<Vec<u8>, AllocError>
    ensures { IfOk result (λ message. message.items ≡ settings_message policy beginning salt.now) }
{
    let numbers = settings_numbers(alloc, policy, beginning)?;
    let numbers = numbers.as_str();
    let text = format!(in alloc; "dss-settings 3\n{numbers}\n{salt}")?;
    Vec::from_slice(alloc, text.as_bytes())
}

/// Returns the number of the settings with which an instance evaluates calls: the number of the
/// policy, the number of the airspace at the beginning of the log, and the salt. The number of the
/// empty airspace is 0.
///
/// It is the first 8 bytes of a SHA-256 digest (FIPS 180-4), big-endian. So instances with
/// different settings have different numbers, except by chance, once in 2^64.
///
/// Returns `AllocError` if memory runs out.
pub fn settings_number(
    alloc: Global,
    policy: u64,
    beginning: u64,
    salt: &str,
) -> Result<u64, AllocError>
    ensures { IfOk result (λ number. number ≡ settings_number policy beginning salt.now) }
{
    let message = settings_message(alloc, policy, beginning, salt)?;
    let digest = Sha256::digest(message.as_slice());
    match digest.first_chunk::<8>() {
        Some(first) => Ok(u64::from_be_bytes(*first)),
        None => unreachable!(),
    }
}
