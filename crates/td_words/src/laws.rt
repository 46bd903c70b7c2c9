//! A law of words, as the contract of a function that does nothing.
ghost use Rattle.td_words.specs.Laws.{WordsAskForOneJob};

/// Words ask for at most one job.
pub fn words_ask_for_one_job()
    ensures { WordsAskForOneJob }
{}
