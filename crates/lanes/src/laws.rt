//! Laws of lane-wise words and of the three parties. Each function does nothing, and its contract is the law.
ghost use Rattle.lanes.specs.CarrySave.{CarrySaveKeepsSum};
ghost use Rattle.lanes.specs.Folds.{FoldFromFirst, FoldOfAppended, FoldOfZipped};
ghost use Rattle.lanes.specs.Items.{LaneItems, LaneLengths, WordsOfParts, WordsStay};
ghost use Rattle.lanes.specs.Laws.{XorCommutes, XorAssociates, MaskComesOff, AndDistributes, NotOfOneShare, PickOfXor, PickOfPick, AndOfShares, GoRound, PutIsAt};
ghost use Rattle.lanes.specs.Logarithm.{IsLeastLog, LogCountsDoublings, LogOfNumbers};
ghost use Rattle.lanes.specs.SharedAnd.{MaskedAndOfShares, MasksAbsorb, OpenedGoesRound, ThirdMaskIsApart};
ghost use Rattle.lanes.specs.Table.{PlacesOfTable};
ghost use Rattle.lanes.specs.WordLaws.{WordsByBits, WordsUnderFlags};
ghost use Rattle.lanes.specs.XorLaws.{AndsAndNots, PicksOfParts, XorGoesThrough, XorIsLanewise, XorOfParts, XorOfZeros};

/// The laws of lane-wise words: a call does nothing, and its contract states them for all lists.
pub fn lane_laws()
    ensures xor_commutes { XorCommutes }
    ensures xor_associates { XorAssociates }
    ensures mask_comes_off { MaskComesOff }
    ensures and_distributes { AndDistributes }
    ensures not_of_one_share { NotOfOneShare }
    ensures pick_of_xor { PickOfXor }
    ensures pick_of_pick { PickOfPick }
    ensures and_of_shares { AndOfShares }
    ensures words_stay { WordsStay }
{}

/// How long lane-wise lists are, which word stands in each lane, and when parts of a list are words.
pub fn item_laws()
    ensures lengths { LaneLengths }
    ensures items { LaneItems }
    ensures parts { WordsOfParts }
{}

/// What goes through the xor of two lists, and how xor, and, not and picking go with zeros and with parts.
pub fn xor_laws()
    ensures goes_through { XorGoesThrough }
    ensures lanewise { XorIsLanewise }
    ensures zeros { XorOfZeros }
    ensures parts { XorOfParts }
    ensures ands_and_nots { AndsAndNots }
    ensures picks { PicksOfParts }
{}

/// The and of shares under masks, as one law of three parties going round.
pub fn shared_and_laws()
    ensures masked { MaskedAndOfShares }
    ensures absorb { MasksAbsorb }
    ensures apart { ThirdMaskIsApart }
    ensures round { OpenedGoesRound }
{}

/// The laws of the three parties and of a value for each of them.
pub fn party_laws()
    ensures go_round { GoRound }
    ensures put_is_at { PutIsAt }
{}

/// The places of a table, row after row, are the numbers below its size.
pub fn table_laws()
    ensures { PlacesOfTable }
{}

/// Folds by an operation whose operands may be regrouped and exchanged.
pub fn fold_laws()
    ensures from_first { FoldFromFirst }
    ensures zipped { FoldOfZipped }
    ensures appended { FoldOfAppended }
{}

/// The logarithm to base 2, rounded up: the least number, its values, and that it counts doublings.
pub fn log_laws()
    ensures least { IsLeastLog }
    ensures numbers { LogOfNumbers }
    ensures doublings { LogCountsDoublings }
{}

/// Three words as two with the same sum; arithmetic, comparison and choice of words by xor, and and shifts.
pub fn word_laws()
    ensures carry_save { CarrySaveKeepsSum }
    ensures bits { WordsByBits }
    ensures flags { WordsUnderFlags }
{}
