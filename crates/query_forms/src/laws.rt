//! Laws of files that are rewritten.
ghost use Rattle.query_forms.specs.Laws.{RewritingAgainChangesNothing, RewritingHasTheFaultsOfReading, RewritingTextsAgainChangesNothing, RewrittenTextsHoldTheSame, RewrittenValuesHoldTheSame, WorkloadsOfChangesAreJson};

/// A value without a fault has none after it was rewritten, and it holds the same entries.
pub fn rewritten_values_hold_the_same()
    ensures { RewrittenValuesHoldTheSame }
{}

/// Rewriting a value that was rewritten changes nothing.
pub fn rewriting_again_changes_nothing()
    ensures { RewritingAgainChangesNothing }
{}

/// Every text without a fault can be rewritten, and what it becomes has no fault and holds the same entries.
pub fn rewritten_texts_hold_the_same()
    ensures { RewrittenTextsHoldTheSame }
{}

/// Rewriting a text that was rewritten changes nothing.
pub fn rewriting_texts_again_changes_nothing()
    ensures { RewritingTextsAgainChangesNothing }
{}

/// A text has the same faults whether it is read or rewritten.
pub fn rewriting_has_the_faults_of_reading()
    ensures { RewritingHasTheFaultsOfReading }
{}

/// The workload of a file of changes is a value, so it's never refused as a text that isn't JSON, nor for want of memory.
pub fn workloads_of_changes_are_json()
    ensures { WorkloadsOfChangesAreJson }
{}
