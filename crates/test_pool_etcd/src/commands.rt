//! Commands, and the arguments of the program.
use hex::FromHex;
use pool_chain::chain::Chain;
use pool_chain::link::Link;
use pool_etcd::settings::{EtcdSettings, POLICY, User, settings_number};
use std::alloc::{AllocError, Global};
use std::net::SocketAddr;

/// A command.
#[derive(Clone, Copy, Debug)]
pub(crate) enum Command<'a> {
    /// Offers a batch with this text.
    Offer(&'a str),
    /// Offers a batch of so many bytes.
    Long(usize),
    /// Asks whether the instance may act for a USS.
    Admits(&'a str),
    /// Asks for the end of the log.
    End,
    /// Goes on for so many milliseconds.
    Wait(u64),
    /// Goes on until nothing is open, at most so many milliseconds.
    Settle(u64),
    /// Ends the program.
    Quit,
}

/// Returns the command that a line is.
pub(crate) fn command_of(line: &str) -> Option<Command<'_>> {
    match line.split_once(' ') {
        Some(("offer", text)) => Some(Command::Offer(text)),
        Some(("long", count)) => Some(Command::Long(count.parse::<usize>().ok()?)),
        Some(("admits", uss)) => Some(Command::Admits(uss)),
        Some(("wait", time)) => Some(Command::Wait(time.parse::<u64>().ok()?)),
        Some(("settle", time)) => Some(Command::Settle(time.parse::<u64>().ok()?)),
        Some(_) => None,
        None => match line {
            "end" => Some(Command::End),
            "quit" => Some(Command::Quit),
            "offer" => Some(Command::Offer("")),
            _ => None,
        },
    }
}

// Returns the addresses of a list that is separated by commas.
fn addresses_of(alloc: Global, list: &str) -> Result<Option<Vec<SocketAddr>>, AllocError> {
    let mut addresses = Vec::new(alloc);
    for word in list.split(',') {
        match word.parse::<SocketAddr>() {
            Ok(address) => addresses.push(address)?,
            Err(_) => return Ok(None),
        }
    }
    Ok(Some(addresses))
}

// Returns the number in an argument, or 0 if there is none.
fn number_at(words: &[String], index: usize) -> Option<u64> {
    match words.get(index) {
        Some(word) => word.as_str().parse::<u64>().ok(),
        None => Some(0),
    }
}

// Returns the number of the pool's settings in an argument. `-` is none, as if it were absent.
fn pool_at(words: &[String], index: usize) -> Option<Option<u64>> {
    match words.get(index) {
        None => Some(None),
        Some(word) if word.as_str() == "-" => Some(None),
        Some(word) => Some(Some(word.as_str().parse::<u64>().ok()?)),
    }
}

// Returns the chain behind the link in two arguments, or that over no changes if there are none. It
// keeps no earlier digests.
fn chain_at(alloc: Global, words: &[String], index: usize) -> Result<Chain, AllocError> {
    let (Some(count), Some(digest)) = (words.get(index), words.get(index.saturating_add(1))) else {
        return Ok(Chain::new(alloc));
    };
    match (
        count.as_str().parse::<u64>(),
        <[u8; 32] as FromHex>::from_hex(digest.as_str()),
    ) {
        (Ok(count), Ok(digest)) => Ok(Chain::behind(alloc, Link { count, digest })),
        _ => Ok(Chain::new(alloc)),
    }
}

/// Returns the settings that the arguments give.
pub(crate) fn settings_of(
    alloc: Global,
    words: &[String],
) -> Result<Option<EtcdSettings>, AllocError> {
    let (Some(list), Some(name), Some(_)) = (words.get(1), words.get(2), words.get(3)) else {
        return Ok(None);
    };
    let Some(endpoints) = addresses_of(alloc, list.as_str())? else {
        return Ok(None);
    };
    let (Some(number), Some(revision), Some(count)) = (
        number_at(words, 3),
        number_at(words, 4),
        number_at(words, 5),
    ) else {
        return Ok(None);
    };
    let (salt, policy) = match (words.get(6), words.get(7)) {
        (Some(salt), Some(policy)) => (salt.as_str(), policy.as_str().parse::<u64>().ok()),
        _ => ("", Some(POLICY)),
    };
    let (Some(policy), Some(pool)) = (policy, pool_at(words, 8)) else {
        return Ok(None);
    };
    let user = match (words.get(11), words.get(12)) {
        (Some(name), Some(password)) => Some(User {
            name: name.clone()?,
            password: password.clone()?,
        }),
        _ => None,
    };
    Ok(Some(EtcdSettings {
        endpoints,
        user,
        name: name.clone()?,
        number,
        revision,
        count,
        chain: chain_at(alloc, words, 9)?,
        agreed: settings_number(alloc, policy, 0, salt)?,
        pool,
    }))
}
