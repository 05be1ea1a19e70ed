//! Drawn schedules of a pool.
use crate::draws::Draws;
use crate::plan::{Plan, draw_crowded_plan, draw_hasty_plan, draw_plan, percentage};
use crate::pool_log::LogCourse;
use crate::shared::SECOND;
use entity_core::salt::Salt;
use std::alloc::{AllocError, Global};
use wire_http::Explaining;

const MILLISECOND: u64 = 1_000_000;

// How many of a hundred schedules have many clients of one USS, and up to where hasty ones follow.
const CROWDED: u64 = 5;

const HASTY: u64 = 20;

// How many numbers of changes a process has.
const MARKS: u64 = 100_000;

// The USSs for which the organization may not act in some pools.
const USSS: [&str; 4] = ["uss-a", "uss-b", "uss-c", "uss-d"];

/// What is drawn of a pool for all processes of an instance, which run one after the other.
#[derive(Clone, Copy, Debug)]
pub(crate) struct PoolPlan {
    pub(crate) processes: u64,
    pub(crate) retention: Option<u64>,
    pub(crate) excluded: Option<&'static str>,
}

/// Draws a pool.
pub(crate) fn draw_pool(draws: &mut Draws) -> PoolPlan {
    let processes = match draws.below(10) {
        0 => 3,
        1 | 2 | 3 => 2,
        _ => 1,
    };
    let retention = if draws.chance(50) {
        Some(draws.below(120))
    } else {
        None
    };
    let excluded = if draws.chance(20) {
        USSS.get(draws.below(4) as usize).copied()
    } else {
        None
    };
    PoolPlan {
        processes,
        retention,
        excluded,
    }
}

/// Draws the schedule of the process with that index. Its responses have no explanations.
pub(crate) fn draw_process(
    alloc: Global,
    salt: &Salt,
    draws: &mut Draws,
    index: u64,
) -> Result<Plan, AllocError> {
    let mark = first_mark(index);
    let which = draws.below(100);
    if which < CROWDED {
        return draw_crowded_plan(alloc, salt, draws, mark);
    }
    if which < HASTY {
        return draw_hasty_plan(alloc, salt, draws, mark);
    }
    let mut plan = draw_plan(alloc, salt, draws, mark)?;
    plan.explaining = Explaining::Off;
    Ok(plan)
}

/// Returns the first number of the changes of a process.
pub(crate) fn first_mark(index: u64) -> u64 {
    index.saturating_mul(MARKS)
}

/// Returns the first number of the changes that others make while a process runs.
pub(crate) fn others_mark(index: u64) -> u64 {
    first_mark(index).saturating_add(MARKS / 2)
}

// Draws the most nanoseconds that something takes: seconds in some cases.
fn most(draws: &mut Draws) -> u64 {
    if draws.chance(15) {
        draws.below(3 * SECOND)
    } else {
        draws.below(80 * MILLISECOND)
    }
}

/// Draws how the log behaves for a process that starts at a time.
pub(crate) fn draw_log(draws: &mut Draws, now: u64, pool: PoolPlan) -> LogCourse {
    LogCourse {
        stores: most(draws),
        arrives: most(draws),
        answers: most(draws),
        slow: percentage(draws, 30, 6),
        unmade: percentage(draws, 30, 15),
        unanswered: percentage(draws, 30, 15),
        memory: percentage(draws, 20, 10),
        lost_at: if draws.chance(15) {
            Some(now.saturating_add(draws.below(20 * SECOND)))
        } else {
            None
        },
        ends_unmade: draws.chance(50),
        excluded: pool.excluded,
    }
}
