//! Laws of the watch over the clock. Each is the contract of a function that does nothing.
ghost use Rattle.server_watch.specs.Laws.{HoldsSurviveRestarts};

/// States that a restart releases no purges: what the clock contradicts while purges are held, it
/// contradicts at the next start, too.
pub fn holds_survive_restarts()
    ensures { HoldsSurviveRestarts }
{}
