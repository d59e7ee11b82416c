//! Laws of blocks and orders.

ghost use Rattle.mblock.specs.Orders.{EachBlockKeepsWords, EachPlainOrderIsClean, EachPlainOrderMeansItsBlock, EachPlainUnitHasItsOrders};
ghost use Rattle.mblock.specs.Numbers.{LimitsAreTheseNumbers};

/// States that a plain order breaks no delay rule.
pub fn each_plain_order_is_clean()
    ensures { EachPlainOrderIsClean }
{}

/// States that a plain order means its block.
pub fn each_plain_order_means_its_block()
    ensures { EachPlainOrderMeansItsBlock }
{}

/// States that the plain orders of blocks are orders of them.
pub fn each_plain_unit_has_its_orders()
    ensures { EachPlainUnitHasItsOrders }
{}

/// States that what a block leaves are words and bytes, if that is what it began with.
pub fn each_block_keeps_words()
    ensures { EachBlockKeepsWords }
{}

/// States that each limit is the number that specs/Numbers.antt tells, so a change of one is a change there. A law: it computes nothing.
pub fn limits_are_these_numbers()
    ensures { LimitsAreTheseNumbers }
{}
