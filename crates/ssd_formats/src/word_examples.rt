//! The words of the command line and the texts of statuses at examples that were worked out by hand.
ghost use Rattle.std.specs.Prelude.{◌≡◌, ◌∷◌, [], map, flat_map};
ghost use Rattle.ssd_formats.specs.Statuses.{status_number, status_text};
ghost use Rattle.ssd_formats.specs.TextExamples.{lines_text};
ghost use Rattle.ssd_formats.specs.Words.{command_of};
ghost use Rattle.ssd_formats.specs.WordExamples.{accepted_commands, accepted_words, refusals, refused_words, some_statuses, some_status_texts};

/// Each command with some of its options, and lists of words that are no command.
pub fn example_words()
    ensures accepted { map command_of accepted_words ≡ accepted_commands }
    ensures refused { map command_of refused_words ≡ refusals }
{}

/// The numbers and the texts of all statuses.
pub fn example_statuses()
    ensures numbers { map status_number some_statuses ≡ 0 ∷ 2 ∷ 3 ∷ 3 ∷ 4 ∷ 4 ∷ 5 ∷ 6 ∷ 7 ∷ 8 ∷ 9 ∷ [] }
    ensures texts { flat_map status_text some_statuses ≡ lines_text some_status_texts }
{}
