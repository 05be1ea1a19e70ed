//! Laws of chains. Each is the contract of a function that does nothing.
ghost use Rattle.pool_chain.specs.Chain.{ChainDecides};
ghost use Rattle.pool_chain.specs.Item.{SpellingIsUnique};
ghost use Rattle.pool_chain.specs.Judged.{KeepsFirst, KeepsMore, KeepsShortened, KeptDecides, OwnLinkIsSame, SameLinkSameItems};

/// States that the text of an item has one reading, also if other bytes follow it.
pub fn spelling_is_unique()
    ensures { SpellingIsUnique }
{}

/// States that as many items with the same digest are the same ones, or that two different texts
/// have one digest.
pub fn chain_decides()
    ensures { ChainDecides }
{}

/// States that two processes that judge a link to be the same were given the same items up to its
/// count, or that two different texts have one digest.
///
/// A process judges its own link to be the same. So a process that goes on behind the link of
/// another has all of the items that the other had then. Nothing is assumed of what gives the
/// items: the two may be given different ones.
pub fn same_link_same_items()
    ensures same { SameLinkSameItems }
    ensures own { OwnLinkIsSame }
{}

/// States that a chain judges a link as the changes do that the process was given, however it
/// started, and whenever it dropped old digests.
///
/// So processes that were given the same changes judge each link alike.
pub fn kept_decides()
    ensures decides { KeptDecides }
    ensures first { KeepsFirst }
    ensures more { KeepsMore }
    ensures shortened { KeepsShortened }
{}
