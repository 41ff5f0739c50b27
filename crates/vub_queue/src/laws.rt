//! Laws of taking and putting: each of these calls does nothing, and its contract is the law.
ghost use Rattle.vub_queue.specs.Laws.{EmptyWhereNoneIsLeft, EntryStandsInItsSlot, HeadHasOneChain, ChainFailsNoTest, TakeHasOneAnswer, TakeHasAnAnswer, PutChangesOnlyItsPlaces, TakeChangesOnlyAvailEvent, TakeChangesNothing};

/// Entry n stands in slot n modulo the size, though indexes have 16 bits.
pub fn entry_stands_in_its_slot()
    ensures { EntryStandsInItsSlot }
{}

/// The available ring is empty, so that a take finds nothing, exactly where no entry is left.
pub fn empty_where_none_is_left()
    ensures { EmptyWhereNoneIsLeft }
{}

/// A head has one chain at most.
pub fn head_has_one_chain()
    ensures { HeadHasOneChain }
{}

/// A head that has a chain fails no test.
pub fn chain_fails_no_test()
    ensures { ChainFailsNoTest }
{}

/// A take has one answer at most.
pub fn take_has_one_answer()
    ensures { TakeHasOneAnswer }
{}

/// A take has an answer in every memory, and a function of the memory and the ring gives it.
pub fn take_has_an_answer()
    ensures { TakeHasAnAnswer }
{}

/// A put changes the bytes that the reply fills, the used element and the index word, and no other.
pub fn put_changes_only_its_places()
    ensures { PutChangesOnlyItsPlaces }
{}

/// A take changes no byte but those of avail_event.
pub fn take_changes_only_avail_event()
    ensures { TakeChangesOnlyAvailEvent }
{}

/// A take changes no byte where notifications do not go by index.
pub fn take_changes_nothing()
    ensures { TakeChangesNothing }
{}
