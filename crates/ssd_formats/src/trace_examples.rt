//! Traces and their first faults at examples that were worked out by hand.
ghost use Rattle.std.specs.Prelude.{◌≡◌, ◌∷◌, ◌++◌, ◌^◌, ◌-◌, [], map, Ok, Err, codes};
ghost use Rattle.ssd_formats.specs.InputFaults.{long};
ghost use Rattle.ssd_formats.specs.TraceExamples.{small_trace, every_verb_text, every_verb_trace, first_line_texts, first_line_faults, with_second_line, fault_of_trace, wrong_lines, wrong_line_faults, at_second, call_of, with_data_bytes, two_reads, read_line};
ghost use Rattle.ssd_formats.specs.TraceText.{calls_of_lines, content_bytes, kinds_of_trace};
ghost use Rattle.ssd_geo.specs.declared.trace.Content.TheVariants.{Listed, Words};
ghost use Rattle.ssd_geo.specs.declared.trace.Verb.TheVariants.{Read, Write};
ghost use Rattle.ssd_geo.specs.declared.reply.CallKind.TheVariants as kinds;

/// A trace with each verb, its calls numbered by actor, and the kinds of its calls.
pub fn example_trace()
    ensures read { small_trace every_verb_text ≡ Ok every_verb_trace }
    ensures kinds_of_calls { kinds_of_trace every_verb_trace
        ≡ (kinds.Write ∷ kinds.Read ∷ kinds.Refresh ∷ kinds.Collect ∷ [])
        ∷ (kinds.Write ∷ kinds.Write ∷ kinds.Trim ∷ kinds.Drain ∷ kinds.Age ∷ []) ∷ [] }
    ensures last_page { with_second_line (codes "0 write 7 x00")
        ≡ Ok (record { actors = 1; calls = call_of 0 0 (Write 7 (Listed (0 ∷ []))) ∷ [] }) }
{}

/// The first wrong line of a trace, and what is wrong with it.
pub fn example_trace_faults()
    ensures first_lines { map (λ text. fault_of_trace (small_trace text)) first_line_texts ≡ first_line_faults }
    ensures calls { map (λ line. fault_of_trace (with_second_line line)) wrong_lines
        ≡ map at_second wrong_line_faults }
{}

/// Listed data has zeros after it. Generated data is made of the generator's words, each low byte first: those from 0
/// begin with e220a8397b1dcdaf.
pub fn example_contents()
    ensures listed { content_bytes 4 (Listed (1 ∷ 2 ∷ [])) ≡ 1 ∷ 2 ∷ 0 ∷ 0 ∷ [] }
    ensures generated { content_bytes 10 (Words 0)
        ≡ 0xaf ∷ 0xcd ∷ 0x1d ∷ 0x7b ∷ 0x39 ∷ 0xa8 ∷ 0x20 ∷ 0xe2 ∷ 0xf4 ∷ 0x65 ∷ [] }
{}

/// A line may end at the last byte that a trace may have, and the reads may give as many bytes as they may: one more is
/// too long. A line that is skipped counts too.
pub fn example_trace_limits()
    ensures last_byte { calls_of_lines (with_data_bytes 8) 1 7 (2 ^ 26 - 9) two_reads (read_line ∷ [])
        ≡ Ok (two_reads ++ call_of 0 2 (Read 1) ∷ []) }
    ensures past_last_byte { calls_of_lines (with_data_bytes 8) 1 7 (2 ^ 26 - 8) two_reads (read_line ∷ []) ≡ Err (7, long) }
    ensures skipped { calls_of_lines (with_data_bytes 8) 1 7 (2 ^ 26) two_reads (record { text = []; taken = 1 } ∷ [])
        ≡ Err (7, long) }
    ensures last_read { calls_of_lines (with_data_bytes 357913941) 1 7 0 two_reads (read_line ∷ [])
        ≡ Ok (two_reads ++ call_of 0 2 (Read 1) ∷ []) }
    ensures past_last_read { calls_of_lines (with_data_bytes 357913942) 1 7 0 two_reads (read_line ∷ []) ≡ Err (7, long) }
{}
