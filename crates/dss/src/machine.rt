//! What the system says of this process and of the database files.
use admin_http::machine::MachineMetrics;
use std::fs;
use std::time::Duration;

// The bytes of a page of memory, and the milliseconds of a tick of processor time, on x86_64 Linux.
const PAGE: u64 = 4_096;

const TICK: u64 = 10;

// Returns the number in a word.
fn number(word: Option<&str>) -> Option<u64> {
    let Ok(number) = word?.parse::<u64>() else {
        return None;
    };
    Some(number)
}

// Returns the fields of `/proc/self/stat` after the name of the program, which may have spaces.
fn after_name(stat: &str) -> Option<&str> {
    let (_, fields) = stat.rsplit_once(')')?;
    Some(fields)
}

// Returns the processor time in the user's code and in the system, fields 14 and 15.
fn cpu_time(stat: &str) -> Option<Duration> {
    let mut fields = after_name(stat)?.split_ascii_whitespace();
    let user = number(fields.nth(11))?;
    let system = number(fields.next())?;
    Some(Duration::from_millis(user.saturating_add(system).saturating_mul(TICK)))
}

// Returns the resident memory in bytes, field 24 in pages.
fn resident(stat: &str) -> Option<u64> {
    let pages = number(after_name(stat)?.split_ascii_whitespace().nth(21))?;
    Some(pages.saturating_mul(PAGE))
}

// Returns the soft limit in the line of `/proc/self/limits` for open files.
fn max_files(limits: &str) -> Option<u64> {
    for line in limits.lines() {
        if let Some(values) = line.strip_prefix("Max open files") {
            return number(values.split_ascii_whitespace().next());
        }
    }
    None
}

// Returns the number of open file descriptors. The one that reads the directory does not count.
fn open_files(rt: &HostRuntime) -> Option<u64> {
    let Ok(entries) = fs::read_dir(rt, "/proc/self/fd") else {
        return None;
    };
    let mut count = 0_u64;
    for _entry in entries {
        count = count.saturating_add(1);
    }
    Some(count.saturating_sub(1))
}

// Returns the length of the file of that name.
fn length_of(rt: &HostRuntime, name: &str) -> Option<u64> {
    match fs::metadata(rt, name) {
        Ok(found) => Some(found.len()),
        Err(_) => None,
    }
}

// Returns the length of the log of a database. It is 0 if there is no log.
fn log_length(rt: &HostRuntime, database: &str) -> Option<u64> {
    let Ok(log) = format!(in rt.alloc(); "{database}-wal") else {
        return None;
    };
    Some(length_of(rt, log.as_str()).unwrap_or(0))
}

/// Returns the metrics of this process, and of a database if there is one.
pub(crate) fn machine_metrics(rt: &HostRuntime, database: Option<&str>) -> MachineMetrics {
    let mut metrics = MachineMetrics::unknown();
    if let Ok(stat) = fs::read_to_string(rt, "/proc/self/stat") {
        metrics.cpu = cpu_time(stat.as_str());
        metrics.resident = resident(stat.as_str());
    }
    if let Ok(limits) = fs::read_to_string(rt, "/proc/self/limits") {
        metrics.max_files = max_files(limits.as_str());
    }
    metrics.open_files = open_files(rt);
    if let Some(database) = database {
        metrics.database = length_of(rt, database);
        metrics.log = log_length(rt, database);
    }
    metrics
}
