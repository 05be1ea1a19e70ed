//! The chain of a pool's file: the digests over the changes of the log up to the revision of the
//! file, and over fewer.
//!
//! The first line has the numbers of changes of the first digest and of the last one, the revision of
//! the file, and the digest of its content. Each further line is a digest over changes.
use crate::cause::Cause;
use crate::file_digest::{FileDigest, digest_of, number_of};
use crate::pool_files::{FileName, PoolFiles};
use dss_command::fault::{Fault, io_fault};
use dss_command::pool_fault::PoolFault;
use hex::FromHex;
use pool_chain::chain::Chain;
use pool_chain::link::{Link, MAX_BEHIND};
use std::alloc::{AllocError, Global};
use std::io;

// The first line, up to the numbers.
const FIRST: &str = "dss-chain 2 ";

// That of releases before 0.17.0, which has neither the revision nor the digest.
const UNBOUND: &str = "dss-chain 1 ";

/// The file whose chain a chain is.
#[derive(Clone, Copy, Debug)]
pub(crate) struct OwnFile {
    revision: u64,
    digest: FileDigest,
}

/// A chain that was read, and the file that it names.
#[derive(Drop)]
pub(crate) struct FileChain {
    pub(crate) chain: Chain,
    pub(crate) own_file: Option<OwnFile>,
}

// Adds the line of a digest.
fn push_digest(alloc: Global, text: &mut String, digest: &[u8; 32]) -> Result<(), AllocError> {
    let digits = hex::encode(alloc, digest.as_slice())?;
    text.push_str(digits.as_str())?;
    text.push('\n')
}

/// The text of a chain, apart from what it says of its file.
#[derive(Drop)]
pub(crate) struct ChainText {
    first: u64,
    last: u64,
    lines: String,
}

impl ChainText {
    /// Returns the text of a chain.
    pub(crate) fn of(alloc: Global, chain: &Chain) -> Result<ChainText, AllocError> {
        let link = chain.link();
        let kept = chain.kept();
        let mut lines = String::new(alloc);
        for index in 0..kept {
            if let Some(digest) = chain.earlier(index) {
                push_digest(alloc, &mut lines, &digest)?;
            }
        }
        push_digest(alloc, &mut lines, &link.digest)?;
        Ok(ChainText {
            first: link.count.saturating_sub(kept as u64),
            last: link.count,
            lines,
        })
    }

    /// Returns the whole text, given the revision of the file and the digest of its content.
    pub(crate) fn with_file(
        &self,
        alloc: Global,
        revision: u64,
        digest: &FileDigest,
    ) -> Result<String, AllocError> {
        let ChainText { first, last, lines } = self;
        let digits = hex::encode(alloc, digest.as_slice())?;
        format!(in alloc; "{FIRST}{first} {last} {revision} {digits}\n{lines}")
    }
}

// Returns the digest that a line is.
fn digest_of_line(line: Option<&str>) -> Option<[u8; 32]> {
    match <[u8; 32] as FromHex>::from_hex(line?) {
        Ok(digest) => Some(digest),
        Err(_) => None,
    }
}

// The first line of a chain.
#[derive(Clone, Copy, Debug)]
struct ChainHead {
    first: u64,
    last: u64,
    own_file: Option<OwnFile>,
}

// Returns two numbers with a space between them.
fn numbers_of(text: &str) -> Option<(u64, u64)> {
    let (first, last) = text.split_once(' ')?;
    match (first.parse::<u64>(), last.parse::<u64>()) {
        (Ok(first), Ok(last)) => Some((first, last)),
        _ => None,
    }
}

// Returns the head that the first line is.
fn head_of(line: Option<&str>) -> Option<ChainHead> {
    let line = line?;
    if let Some(numbers) = line.strip_prefix(UNBOUND) {
        let (first, last) = numbers_of(numbers)?;
        return Some(ChainHead {
            first,
            last,
            own_file: None,
        });
    }
    let (numbers, digest) = line.strip_prefix(FIRST)?.rsplit_once(' ')?;
    let (numbers, revision) = numbers.rsplit_once(' ')?;
    let (first, last) = numbers_of(numbers)?;
    let Ok(revision) = revision.parse::<u64>() else {
        return None;
    };
    let digest = digest_of_line(Some(digest))?;
    Some(ChainHead {
        first,
        last,
        own_file: Some(OwnFile { revision, digest }),
    })
}

// Returns the chain that a text is. It must keep all digests that links are compared with, so a
// text that was cut is none.
fn parse(alloc: Global, text: &str) -> Result<Option<FileChain>, AllocError> {
    let mut lines = text.lines();
    let Some(head) = head_of(lines.next()) else {
        return Ok(None);
    };
    let ChainHead {
        first,
        last,
        own_file,
    } = head;
    let Some(digest) = digest_of_line(lines.next()) else {
        return Ok(None);
    };
    let link = Link {
        count: first,
        digest,
    };
    let mut chain = Chain::behind(alloc, link);
    for line in lines {
        let Some(digest) = digest_of_line(Some(line)) else {
            return Ok(None);
        };
        chain.push(digest)?;
    }
    let is_short = first > 0 && (chain.kept() as u64) < MAX_BEHIND;
    if is_short || chain.link().count != last {
        return Ok(None);
    }
    Ok(Some(FileChain { chain, own_file }))
}

// Returns the chain of a file.
fn read_chain(rt: &HostRuntime, files: PoolFiles<'_>, name: FileName) -> io::Result<FileChain> {
    let text = files.chain(name)?;
    match parse(rt.alloc(), text.as_str())? {
        Some(chain) => Ok(chain),
        None => Err(io::Error::other("not a chain")),
    }
}

// Returns the chain over no changes.
fn no_chain(rt: &HostRuntime) -> FileChain {
    FileChain {
        chain: Chain::new(rt.alloc()),
        own_file: None,
    }
}

// Returns the fault of a file that has no chain of its own.
fn without_chain(path: &str, error: &io::Error, cause: &mut Cause) -> Fault {
    cause.request();
    cause.record_file(path, error);
    io_fault(error, Fault::Pool(PoolFault::NoChain))
}

/// Returns the chain over the changes up to the revision of the newest file of a directory. Before
/// the first change, it is that over none.
pub(crate) fn chain_of(
    rt: &HostRuntime,
    folder: Option<&str>,
    newest: Option<FileName>,
    cause: &mut Cause,
) -> Result<FileChain, Fault> {
    let (Some(folder), Some(name)) = (folder, newest) else {
        return Ok(no_chain(rt));
    };
    if name.revision == 0 {
        return Ok(no_chain(rt));
    }
    match read_chain(rt, PoolFiles::new(rt, folder), name) {
        Ok(found) => Ok(found),
        Err(error) => Err(without_chain(folder, &error, cause)),
    }
}

// Returns true if a file has the content that its chain or, before the first change, its name says.
fn has_own_content(
    rt: &HostRuntime,
    path: &str,
    name: FileName,
    own_file: Option<OwnFile>,
) -> io::Result<bool> {
    match own_file {
        Some(own) if own.revision != name.revision => Ok(false),
        Some(own) => Ok(digest_of(rt, path)? == own.digest),
        None if name.revision == 0 && name.beginning != 0 => {
            Ok(number_of(&digest_of(rt, path)?) == name.beginning)
        }
        None => Ok(true),
    }
}

/// Rejects a file whose name or content is not what its chain says. The name of the first file of a
/// pool says what its content is.
pub(crate) fn check_content(
    rt: &HostRuntime,
    path: &str,
    name: FileName,
    own_file: Option<OwnFile>,
    cause: &mut Cause,
) -> Result<(), Fault> {
    let error = match has_own_content(rt, path, name, own_file) {
        Ok(true) => return Ok(()),
        Ok(false) => io::Error::other("its name or its content is that of another file"),
        Err(error) => error,
    };
    Err(without_chain(path, &error, cause))
}

/// Writes the chain of the file of that name, whose content the next database has.
pub(crate) fn write_chain(
    rt: &HostRuntime,
    files: PoolFiles<'_>,
    name: FileName,
    chain: &Chain,
) -> io::Result<()> {
    let next = files.next()?;
    let digest = digest_of(rt, next.as_str())?;
    let text = ChainText::of(rt.alloc(), chain)?.with_file(rt.alloc(), name.revision, &digest)?;
    files.put_chain(name, text.as_bytes())
}
