//! Laws of bags and of the sorted list. Each function does nothing, and its contract is the law.
ghost use Rattle.bags.specs.Images.{BagsOfTestedImages};
ghost use Rattle.bags.specs.Laws.{BagsAreEquivalence, BagsArePermutations, BagsKeepRows, BagsOfAppend, BagsOfMap, BagsOfFilter, BagsOfFlatMap, BagsOfImages, BagsOfConcat, BagsOfPlaces, BagsOfFold, BagsOfSameMembers, BagsOfInjectiveMap, SortedIsInOrder, SortedIsUnique, SortedTellsBags};
ghost use Rattle.bags.specs.Words.{FoldOfWords, WordsAreBags, WordsOfRows, WordsOfSameMembers};

/// Being the same bag is an equivalence.
pub fn bags_are_equivalence()
    ensures { BagsAreEquivalence }
{}

/// Two lists are the same bag exactly where one is a permutation of the other.
pub fn bags_are_permutations()
    ensures { BagsArePermutations }
{}

/// The same bag has the same length, and passes the same tests of each row.
pub fn bags_keep_rows()
    ensures { BagsKeepRows }
{}

/// Bags through appending.
pub fn bags_of_append()
    ensures { BagsOfAppend }
{}

/// Bags through a function of each row.
pub fn bags_of_map()
    ensures { BagsOfMap }
{}

/// Bags through a test of each row.
pub fn bags_of_filter()
    ensures { BagsOfFilter }
{}

/// Bags through functions that give several rows for each row.
pub fn bags_of_flat_map()
    ensures { BagsOfFlatMap }
{}

/// Bags through a function of rows that looks at their images alone.
pub fn bags_of_images()
    ensures { BagsOfImages }
{}

/// Bags of rows, and of words, made of rows that pass a test by a function that looks at their images alone.
pub fn bags_of_tested_images()
    ensures { BagsOfTestedImages }
{}

/// Bags through appending many lists.
pub fn bags_of_concat()
    ensures { BagsOfConcat }
{}

/// The rows at all places in any order are the same bag.
pub fn bags_of_places()
    ensures { BagsOfPlaces }
{}

/// Folding an associative, commutative operation gives the same for the same bag.
pub fn bags_of_fold()
    ensures { BagsOfFold }
{}

/// Lists without repeats and with the same rows are the same bag.
pub fn bags_of_same_members()
    ensures { BagsOfSameMembers }
{}

/// A map that can be undone tells bags apart.
pub fn bags_of_injective_map()
    ensures { BagsOfInjectiveMap }
{}

/// The sorted list is in order, and is the same bag.
pub fn sorted_is_in_order()
    ensures { SortedIsInOrder }
{}

/// A permutation that is in order is the sorted list.
pub fn sorted_is_unique()
    ensures { SortedIsUnique }
{}

/// The sorted lists are equal exactly where the bags are.
pub fn sorted_tells_bags()
    ensures { SortedTellsBags }
{}

/// Lists of words as bags: an equivalence, which is the same as being a permutation, and goes through appending.
pub fn words_are_bags()
    ensures { WordsAreBags }
{}

/// Lists of words without repeats and with the same words are the same bag.
pub fn words_of_same_members()
    ensures { WordsOfSameMembers }
{}

/// Folding words by an associative, commutative operation gives the same for the same bag.
pub fn fold_of_words()
    ensures { FoldOfWords }
{}

/// A word for each row of a bag, and a row for each word of a bag, are bags again.
pub fn words_of_rows()
    ensures { WordsOfRows }
{}
