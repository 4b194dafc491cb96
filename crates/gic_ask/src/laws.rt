//! What follows from how asking ends.
ghost use Rattle.gic_ask.specs.Held.{AnswersOfFiles};
ghost use Rattle.gic_ask.specs.WordsRefused.{UsageIsOfWords};

/// Where a library tells its files and no fetch of a named one failed, the answer is that of the files, out of memory
/// aside.
pub fn answers_of_files_law()
    ensures { AnswersOfFiles }
{}

/// Words are refused for a fault of their own alone.
pub fn usage_is_of_words_law()
    ensures { UsageIsOfWords }
{}
