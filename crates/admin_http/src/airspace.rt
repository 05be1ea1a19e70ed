//! The response to a request for the airspace.
ghost use Rattle.std.specs.Prelude.{◌≡◌, IfOk};
ghost use Rattle.admin_http.specs.Airspace.{AnswersAirspace, words_of};

use crate::admin_route::AdminRoute;
use crate::answer::whole;
use admin_airspace::query::PageQuery;
use admin_airspace::shown_page::page_text;
use space_snapshot::snapshot::{NoMirror, Snapshot};
use std::alloc::{AllocError, Global};

// Returns the reason why nothing is shown, in words.
fn no_mirror_text(why: NoMirror) -> &'static str
    ensures { result.now ≡ words_of why }
{
    match why {
        NoMirror::None => "no mirror: out of memory\n",
        NoMirror::Dropped => "no mirror: dropped after a failed commit\n",
    }
}

/// Returns the response to a request for the airspace with a query: a page of the snapshot, the
/// reason why there is none, or a rejection of the query.
pub fn airspace_answer(
    alloc: Global,
    query: &str,
    shown: Result<Snapshot<'_>, NoMirror>,
) -> Result<Vec<u8>, AllocError>
    ensures { IfOk result (λ text. AnswersAirspace shown.entry text.items) }
{
    let shown = match shown {
        Ok(shown) => shown,
        Err(why) => return whole(alloc, 503, None, None, no_mirror_text(why)),
    };
    let Some(query) = PageQuery::read(query) else {
        return whole(alloc, 400, None, None, "invalid query\n");
    };
    let text = page_text(alloc, shown, query)?;
    whole(alloc, 200, Some(AdminRoute::Airspace), None, text.as_str())
}
