//! How many clients the system's limit on file descriptors allows.
use std::fs;

// The file that has the limits of this process, and the name of the limit in it.
const LIMITS: &str = "/proc/self/limits";

const OPEN_FILES: &str = "Max open files";

// The descriptors that clients leave: those of the admin port, and of the files that are open or
// are opened while clients are served.
const RESERVED: usize = 32;

// Returns the first number after the name of the limit.
fn limit_in(text: &str) -> Option<usize> {
    for line in text.lines() {
        if let Some(rest) = line.strip_prefix(OPEN_FILES) {
            let number = rest.split_whitespace().next()?;
            return match number.parse::<usize>() {
                Ok(number) => Some(number),
                Err(_) => None,
            };
        }
    }
    None
}

/// Returns how many clients have a descriptor at once, at least 1. Returns `None` if the system
/// sets no limit, or does not return it.
pub(crate) fn max_clients(rt: &HostRuntime) -> Option<usize> {
    let Ok(text) = fs::read_to_string(rt, LIMITS) else {
        return None;
    };
    let limit = limit_in(text.as_str())?;
    Some(limit.saturating_sub(RESERVED).max(1))
}
