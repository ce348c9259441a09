//! What histories and their texts are to one another.
ghost use Rattle.ssd_formats.specs.HistoryText.{HistoriesAreRead, WholeTextTellsHistories};

/// Histories are read from their text, and the whole text of a run tells its histories.
pub fn texts_tell_histories()
    ensures read { HistoriesAreRead }
    ensures told { WholeTextTellsHistories }
{}
