//! Laws of orders, rows, needs and tapes. Each function computes nothing, and its contract is the law.
ghost use Rattle.tapes.specs.Laws.{OrdersAreClosed, IdentityIsNeutral, OrdersAssociate, InverseUndoes, ComposedIsApplied, AppliedGoesThrough, AlignedIsExact, BytesHaveAnswer, MadeTapeIsOnly, SameBagsAlign, SeedsHaveTapes};
ghost use Rattle.tapes.specs.NeedLaws.{FitsByPlace, FitsOfParts, FitsOrFirstUnfit};
ghost use Rattle.tapes.specs.ReadingLaws.{WordsInBulk};
ghost use Rattle.tapes.specs.RowLaws.{RowsOfColumns, RowsOfOrders};

/// The laws of orders, which are a group: a call does nothing, and its contract states them.
pub fn order_laws()
    ensures closed { OrdersAreClosed }
    ensures identity { IdentityIsNeutral }
    ensures associative { OrdersAssociate }
    ensures inverse { InverseUndoes }
    ensures applied { ComposedIsApplied }
    ensures goes_through { AppliedGoesThrough }
{
    lanes::lane_laws();
}

/// Orders applied to rows, and to columns of words.
pub fn row_laws()
    ensures orders { RowsOfOrders }
    ensures columns { RowsOfColumns }
{
    bags::laws::words_of_same_members();
    bags::laws::words_of_rows();
}

/// The laws of the order that aligns two lists of rows: what it gives, that it is one, and when there is one.
pub fn align_laws()
    ensures exact { AlignedIsExact }
    ensures exist { SameBagsAlign }
{
    bags::laws::bags_are_equivalence();
    bags::laws::bags_keep_rows();
    bags::laws::words_of_same_members();
    bags::laws::words_of_rows();
}

/// Draws that fit needs: in parts, place by place, and the first one that doesn't fit.
pub fn need_laws()
    ensures parts { FitsOfParts }
    ensures places { FitsByPlace }
    ensures unfit { FitsOrFirstUnfit }
{}

/// Words that are read in bulk: which they are, when there are so many, and that draws which fit so
/// many words and more have them.
pub fn cursor_laws()
    ensures { WordsInBulk }
{}

/// Bytes are a tape or have a first fault; which one, `read_tape` says.
pub fn read_laws()
    ensures { BytesHaveAnswer }
{}

/// A seed has exactly one tape for a list of needs.
pub fn made_laws()
    ensures exist { SeedsHaveTapes }
    ensures only { MadeTapeIsOnly }
{
    bags::laws::bags_are_permutations();
    bags::laws::sorted_is_in_order();
}
