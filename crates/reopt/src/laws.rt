//! What a change of the rows of one relation leaves as it was, and which words can be kept.
ghost use Rattle.reopt.specs.Laws.{LeastWordsCanBeKept, OtherSetsStay};

/// A set without the relation keeps its rows, its legal trees with their costs, and its best word.
pub fn other_sets_stay()
    ensures { OtherSetsStay }
{}

/// The words that an engine leaves of a connected query, run over all its pairs, are the best words, so they can be kept.
pub fn least_words_can_be_kept()
    ensures { LeastWordsCanBeKept }
{}
