//! The texts of numbers, entries, replies and runs at examples that were worked out by hand.
ghost use Rattle.std.specs.Prelude.{◌≡◌, ◌∷◌, [], codes, decimal, map, pos, negsuc, Some, None, true, false, Ok, Err, ◌++◌};
ghost use Rattle.ssd_formats.specs.Numbers.{bytes_of_hex, hex_of_bytes, number_below, number_of_text, signed_of_text};
ghost use Rattle.ssd_formats.specs.EntryText.{kind_text, kind_words, histories_text, spaced};
ghost use Rattle.ssd_formats.specs.HistoryText.{read_history};
ghost use Rattle.ssd_formats.specs.Lines.{words_in};
ghost use Rattle.ssd_formats.specs.KindOfWords.{kind_of_words};
ghost use Rattle.ssd_formats.specs.ReplyText.{reply_words};
ghost use Rattle.ssd_formats.specs.RunText.{run_text};
ghost use Rattle.ssd_formats.specs.TextExamples.{one_page_history, one_page_kinds, one_page_replies, one_page_summary, one_page_text, no_calls_text, some_kinds, some_kind_texts, some_replies, some_reply_texts, no_kind_texts, wrong_history_texts, wrong_history_lines};

/// Numbers have one spelling each: neither a leading zero nor a sign too many is read.
pub fn example_numbers()
    ensures printed { map decimal (0 ∷ 7 ∷ 120 ∷ []) ≡ codes "0" ∷ codes "7" ∷ codes "120" ∷ [] }
    ensures read { map number_of_text (codes "0" ∷ codes "120" ∷ []) ≡ Some 0 ∷ Some 120 ∷ [] }
    ensures refused { map number_of_text (codes "" ∷ codes "00" ∷ codes "01" ∷ codes "+1" ∷ codes "1 " ∷ codes "a" ∷ [])
        ≡ None ∷ None ∷ None ∷ None ∷ None ∷ None ∷ [] }
    ensures bounded { map (number_below 16) (codes "15" ∷ codes "16" ∷ []) ≡ Some 15 ∷ None ∷ [] }
    ensures signed { map signed_of_text (codes "-60" ∷ codes "0" ∷ codes "-0" ∷ codes "-" ∷ codes "-01" ∷ [])
        ≡ Some (negsuc 59) ∷ Some (pos 0) ∷ None ∷ None ∷ None ∷ [] }
    ensures hex { hex_of_bytes (1 ∷ 171 ∷ []) ≡ codes "01ab" }
    ensures from_hex { map bytes_of_hex (codes "01ab" ∷ codes "" ∷ codes "0" ∷ codes "AB" ∷ [])
        ≡ Some (1 ∷ 171 ∷ []) ∷ Some [] ∷ None ∷ None ∷ [] }
{}

/// What steps did, one of each kind.
pub fn example_kinds()
    ensures { map kind_text some_kinds ≡ some_kind_texts }
{}

/// Replies, one of each.
pub fn example_replies()
    ensures { map (λ reply. spaced (reply_words reply)) some_replies ≡ some_reply_texts }
{}

/// What a run prints that writes and reads one page, whole and from the summary on, and what one without calls does.
pub fn example_runs()
    ensures one_page { run_text true 2 (one_page_history ∷ []) (one_page_kinds ∷ []) (one_page_replies ∷ []) 0
        ≡ one_page_text }
    ensures one_page_summary { run_text false 2 (one_page_history ∷ []) (one_page_kinds ∷ []) (one_page_replies ∷ []) 0
        ≡ one_page_summary }
    ensures no_calls { run_text true 2 ([] ∷ []) ([] ∷ []) ([] ∷ []) 0 ≡ no_calls_text }
{}

/// What steps did is read from its words, and the words of nothing that a step did are refused.
pub fn example_kinds_read()
    ensures read { map (λ kind. kind_of_words (kind_words kind)) some_kinds ≡ map (λ kind. Some kind) some_kinds }
    ensures refused { map (λ text. kind_of_words (words_in text)) no_kind_texts ≡ map (λ text. None) no_kind_texts }
{}

/// Histories are read from their text; a text with more is refused at its first other line, and one that ends too
/// early at one more than its last.
pub fn example_histories_read()
    ensures read { read_history 2 (histories_text (one_page_history ∷ [] ∷ [])) ≡ Ok (one_page_history ∷ [] ∷ []) }
    ensures more { read_history 1 one_page_text ≡ Err 6 }
    ensures fewer { read_history 2 (histories_text (one_page_history ∷ [])) ≡ Err 6 }
    ensures nothing { read_history 1 [] ≡ Err 1 }
    ensures wrong { map (read_history 1) wrong_history_texts ≡ map (λ line. Err line) wrong_history_lines }
{}
