//! The query of a request's target.
ghost use Rattle.std.specs.Prelude.{◌≡◌};
ghost use Rattle.admin_http.specs.Query.{query_of};

/// Returns the query of a target: the text after the first `?`, or an empty text.
pub fn query_of(target: &str) -> &str
    ensures { result.now ≡ query_of target.now }
{
    match target.split_once('?') {
        Some((_, query)) => query,
        None => "",
    }
}
