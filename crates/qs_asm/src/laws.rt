// The laws of items. Each is the contract of an empty function.
ghost use Rattle.qs_asm.specs.Laws.{ItemsAreLaidOneAfterTheOther, ItemsTakeTheirWords};
ghost use Rattle.qs_asm.specs.Counting.{CountedItemsAreAssembled};

/// Two lists of items are laid one after the other.
pub fn items_are_laid_one_after_the_other()
    ensures { ItemsAreLaidOneAfterTheOther }
{}

/// What is laid takes no more than its words, and ends no earlier than it begins.
pub fn items_take_their_words()
    ensures { ItemsTakeTheirWords }
{}

/// Items whose labels count up from 0, which lead to none but these, and which have less than 2^18
/// words, have an assembly.
pub fn counted_items_are_assembled()
    ensures { CountedItemsAreAssembled }
{}
