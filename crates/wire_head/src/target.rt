//! The target of a request.
ghost use Rattle.std.specs.Prelude.{◌≡◌};
ghost use Rattle.wire_head.specs.Target.{path_of};

/// Returns the path of a request target: the text before the first `?`.
pub fn path_of(target: &str) -> &str
    ensures { result.now ≡ path_of target.now }
{
    match target.split_once('?') {
        Some((path, _)) => path,
        None => target,
    }
}
