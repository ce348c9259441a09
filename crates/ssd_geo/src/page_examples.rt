//! The definitions of places, payloads, codewords of a page, values of senses and stripe sums at examples that were worked out outside.
ghost use Rattle.std.specs.Prelude.{[], ◌∷◌, ◌++◌, ◌≡◌, false, map, pos, negsuc, replicate, true, None, Some};
ghost use Rattle.std.specs.List.{range_with_len};
ghost use Rattle.ssd_geo.specs.Cells.{sensed};
ghost use Rattle.ssd_geo.specs.Ladder.{all_kept, kept_with, page_decoded, partly, whole};
ghost use Rattle.ssd_geo.specs.PageExamples.{small_pages, two_codewords};
ghost use Rattle.ssd_geo.specs.PageHead.{data_of_word, payload_of_page, serial_of_call};
ghost use Rattle.ssd_geo.specs.PageWord.{code_in, codes_in, joined};
ghost use Rattle.ssd_geo.specs.Senses.{five_senses, hard_values, soft_values};
ghost use Rattle.ssd_geo.specs.Stripe.{data_dies, parity_die, is_closed};
ghost use Rattle.ssd_geo.specs.StripeSum.{sum_of_words};
ghost use Rattle.ssd_geo.specs.Superblock.{due_of_dies, slots_of};

/// Three dies and two pages a block: superblock 1 has four slots. Its stripes have their parity on dies 1 and 2, and
/// with three slots used, one stripe is closed and die 0 has a page of the other.
pub fn example_stripes()
    ensures slots { slots_of 2 3 ≡ 4 }
    ensures parity { map (parity_die 3 1) (range_with_len 0 2) ≡ 1 ∷ 2 ∷ [] }
    ensures first_stripe { data_dies 3 1 0 ≡ 0 ∷ 2 ∷ [] }
    ensures second_stripe { data_dies 3 1 1 ≡ 0 ∷ 1 ∷ [] }
    ensures due { due_of_dies 3 1 3 ≡ 2 ∷ 1 ∷ 1 ∷ [] }
{}

/// The first write of the first actor, to row 5, with 8 data bytes in a payload of 24; and call 3 of actor 2 in
/// session 1, to row 258, with 2 data bytes in a payload of 20. A payload is that of its row and serial alone.
pub fn example_payloads()
    ensures first { payload_of_page 24 0 5 (1 ∷ 2 ∷ replicate 6 0)
        ≡ replicate 8 0 ++ 5 ∷ 0 ∷ 0 ∷ 0 ∷ 80 ∷ 71 ∷ 69 ∷ 49 ∷ 1 ∷ 2 ∷ replicate 6 0 }
    ensures serial { serial_of_call 1 2 3 ≡ 1108101562371 }
    ensures later { payload_of_page 20 1108101562371 258 (7 ∷ 9 ∷ [])
        ≡ 3 ∷ 0 ∷ 0 ∷ 0 ∷ 2 ∷ 1 ∷ 0 ∷ 0 ∷ 2 ∷ 1 ∷ 0 ∷ 0 ∷ 80 ∷ 71 ∷ 69 ∷ 49 ∷ 7 ∷ 9 ∷ 0 ∷ 0 ∷ [] }
    ensures accepted { data_of_word 20 2 1108101562371 258 (payload_of_page 20 1108101562371 258 (7 ∷ 9 ∷ []))
        ≡ Some (7 ∷ 9 ∷ []) }
    ensures other_row { data_of_word 20 2 1108101562371 259 (payload_of_page 20 1108101562371 258 (7 ∷ 9 ∷ [])) ≡ None }
    ensures not_zero { data_of_word 20 1 1108101562371 258 (payload_of_page 20 1108101562371 258 (7 ∷ 9 ∷ [])) ≡ None }
{}

/// Two codewords of five bytes with parts of two: the parts stand before the parities, and each is found again. With one
/// codeword the page's word is the codeword.
pub fn example_page_words()
    ensures joined { joined (small_pages 2) ((1 ∷ 2 ∷ 3 ∷ 4 ∷ 5 ∷ []) ∷ (6 ∷ 7 ∷ 8 ∷ 9 ∷ 10 ∷ []) ∷ [])
        ≡ 1 ∷ 2 ∷ 6 ∷ 7 ∷ 3 ∷ 4 ∷ 5 ∷ 8 ∷ 9 ∷ 10 ∷ [] }
    ensures first { code_in (small_pages 2) (range_with_len 0 10) 0 ≡ 0 ∷ 1 ∷ 4 ∷ 5 ∷ 6 ∷ [] }
    ensures second { code_in (small_pages 2) (range_with_len 0 10) 1 ≡ 2 ∷ 3 ∷ 7 ∷ 8 ∷ 9 ∷ [] }
    ensures alone { codes_in (small_pages 1) (range_with_len 0 5) ≡ range_with_len 0 5 ∷ [] }
{}

/// A codeword that is kept isn't decoded again; a page whose codewords are all kept is the page that is looked for, or
/// none of them is kept.
pub fn example_kept_codewords()
    ensures others { kept_with (λ f. Some (f ∷ [])) 0 (None ∷ Some (9 ∷ []) ∷ None ∷ [])
        ≡ Some (0 ∷ []) ∷ Some (9 ∷ []) ∷ Some (2 ∷ []) ∷ [] }
    ensures some { kept_with (λ f. None) 0 (Some (9 ∷ []) ∷ None ∷ []) ≡ Some (9 ∷ []) ∷ None ∷ [] }
    ensures lacking { all_kept (Some (9 ∷ []) ∷ None ∷ []) ≡ None }
    ensures all { all_kept (Some (9 ∷ []) ∷ Some (8 ∷ []) ∷ []) ≡ Some ((9 ∷ []) ∷ (8 ∷ []) ∷ []) }
    ensures accepted { page_decoded two_codewords (λ word. true) (λ f. Some (f ∷ [])) (Some (9 ∷ []) ∷ None ∷ [])
        ≡ whole (9 ∷ 1 ∷ []) }
    ensures dropped { page_decoded two_codewords (λ word. false) (λ f. Some (f ∷ [])) (Some (9 ∷ []) ∷ None ∷ [])
        ≡ partly (None ∷ None ∷ []) }
    ensures kept { page_decoded two_codewords (λ word. false) (λ f. None) (Some (9 ∷ []) ∷ None ∷ [])
        ≡ partly (Some (9 ∷ []) ∷ None ∷ []) }
{}

/// The byte 05h by one sense; and cells at the levels -100, 5, 20, -15, -5, -20, 10 and 19 by senses at -20, -10, 0,
/// 10 and 20.
pub fn example_values()
    ensures hard { hard_values (5 ∷ [])
        ≡ negsuc 31 ∷ pos 32 ∷ negsuc 31 ∷ replicate 5 (pos 32) }
    ensures soft { let levels = negsuc 99 ∷ pos 5 ∷ pos 20 ∷ negsuc 14 ∷ negsuc 4 ∷ negsuc 19 ∷ pos 10 ∷ pos 19 ∷ [] in
        soft_values 1 (map (λ at. sensed at levels) (negsuc 19 ∷ negsuc 9 ∷ pos 0 ∷ pos 10 ∷ pos 20 ∷ []))
        ≡ negsuc 95 ∷ pos 16 ∷ pos 96 ∷ negsuc 47 ∷ negsuc 15 ∷ negsuc 47 ∷ pos 48 ∷ pos 48 ∷ [] }
    ensures senses { five_senses 2 (range_with_len 0 10)
        ≡ (0 ∷ 1 ∷ []) ∷ (2 ∷ 3 ∷ []) ∷ (4 ∷ 5 ∷ []) ∷ (6 ∷ 7 ∷ []) ∷ (8 ∷ 9 ∷ []) ∷ [] }
{}

/// The sum of three words.
pub fn example_stripe_sum()
    ensures { sum_of_words 2 ((15 ∷ 255 ∷ []) ∷ (51 ∷ 1 ∷ []) ∷ (85 ∷ 16 ∷ []) ∷ []) ≡ 105 ∷ 238 ∷ [] }
{}
