//! The head of an image and its first faults at examples that were worked out by hand.
ghost use Rattle.std.specs.Prelude.{codes, ◌≡◌, length, ◌∷◌, ◌++◌, [], map, Ok, Err, take, ◌-◌};
ghost use Rattle.std.specs.List.{range_with_len};
ghost use Rattle.ssd_formats.specs.ImageContents.{blank_channel, image_bytes, read_image};
ghost use Rattle.ssd_formats.specs.ImageExamples.{read_lists, small_image, second_small_image, small_head, fault_of_first, saved_small_head, saved_small_image, one_page_saved, page_image, small_image_with, with_bytes, weak_at, bad_at, two_words_head, two_words_image, saved_two_words_head, two_words_page_image};
ghost use Rattle.ssd_formats.specs.ImageHead.{first_head_bytes, head_bytes, read_head};
ghost use Rattle.ssd_formats.specs.Input.{read_input};
ghost use Rattle.ssd_formats.specs.Statuses.{image, trace};
ghost use Rattle.ssd_formats.specs.TextExamples.{lines_text};
ghost use Rattle.ssd_formats.specs.TraceExamples.{one_page_calls};
ghost use Rattle.ssd_formats.specs.InputFaults.{first, out_of_range, short, magic, range, entry, parity, diagonal, order, state, count, sum, row};

/// A blank image: its head is read whatever follows, in both versions, and is written as it stood.
pub fn example_image()
    ensures read { read_head (small_image ++ 7 ∷ []) ≡ Ok (small_head, record { place = 93; bytes = 7 ∷ [] }) }
    ensures written { first_head_bytes small_head ≡ small_image }
    ensures second_read { read_head (second_small_image ++ 7 ∷ []) ≡ Ok (small_head, record { place = 94; bytes = 7 ∷ [] }) }
    ensures second_written { head_bytes small_head ≡ second_small_image }
{}

/// A blank image of a drive whose pages have two codewords, which only the second version can tell.
pub fn example_two_words_image()
    ensures read { read_head (two_words_image ++ 7 ∷ []) ≡ Ok (two_words_head, record { place = 94; bytes = 7 ∷ [] }) }
    ensures written { head_bytes two_words_head ≡ two_words_image }
    ensures no_words { read_head (with_bytes second_small_image 8 (0 ∷ [])) ≡ Err (8, range) }
    ensures three_words { read_head (with_bytes second_small_image 8 (3 ∷ [])) ≡ Err (8, range) }
    ensures five_words { read_head (with_bytes second_small_image 8 (5 ∷ [])) ≡ Err (8, range) }
    ensures short_words { read_head (take 8 second_small_image) ≡ Err (8, short) }
    ensures data_bytes { read_head (with_bytes two_words_image 21 (9 ∷ [])) ≡ Err (21, range) }
{}

/// The first fault of an image with some bytes changed.
pub fn example_image_faults()
    ensures magic { read_head (with_bytes small_image 0 (84 ∷ [])) ≡ Err (0, magic) }
    ensures third_version { read_head (with_bytes small_image 7 (51 ∷ [])) ≡ Err (0, magic) }
    ensures channels { read_head (with_bytes small_image 8 (0 ∷ [])) ≡ Err (8, range) }
    ensures base_rows { read_head (with_bytes small_image 16 (2 ∷ [])) ≡ Err (16, range) }
    ensures base_columns { read_head (with_bytes small_image 17 (3 ∷ [])) ≡ Err (17, range) }
    ensures programmed { read_head (with_bytes small_image 42 (156 ∷ 255 ∷ [])) ≡ Err (42, range) }
    ensures entry { read_head (with_bytes small_image 52 (64 ∷ 0 ∷ [])) ≡ Err (52, entry) }
    ensures parity { read_head (with_bytes small_image 58 (255 ∷ 255 ∷ [])) ≡ Err (58, parity) }
    ensures diagonal { read_head (with_bytes small_image 60 (1 ∷ 0 ∷ [])) ≡ Err (60, diagonal) }
    ensures contents { read_head (with_bytes small_image 92 (2 ∷ [])) ≡ Err (92, range) }
    ensures second_channels { read_head (with_bytes second_small_image 9 (0 ∷ [])) ≡ Err (9, range) }
    ensures second_entry { read_head (with_bytes second_small_image 53 (64 ∷ 0 ∷ [])) ≡ Err (53, entry) }
    ensures second_contents { read_head (with_bytes second_small_image 93 (2 ∷ [])) ≡ Err (93, range) }
{}

/// Each front of an image that isn't whole is short, at its length.
pub fn example_short_images()
    ensures first { map (fault_of_first small_image) (range_with_len 0 93) ≡ map (λ n. (n, short)) (range_with_len 0 93) }
    ensures second { map (fault_of_first second_small_image) (range_with_len 0 94) ≡ map (λ n. (n, short)) (range_with_len 0 94) }
{}

/// A blank image, and what it is saved as: the same drive, in the next session and in the second version.
pub fn example_saved_image()
    ensures blank { read_image small_image ≡ Ok ((small_head, blank_channel small_head 0 ∷ []), record { place = 93; bytes = [] }) }
    ensures saved { image_bytes saved_small_head (blank_channel small_head 0 ∷ []) ≡ saved_small_image }
    ensures length { length saved_small_image ≡ 162 }
    ensures read { read_image saved_small_image ≡ Ok ((saved_small_head, blank_channel small_head 0 ∷ []), record { place = 162; bytes = [] }) }
{}

/// A full image with one page: its length, and that it is read as it was written. So is one whose page has two codewords,
/// and each of them is tested: the sum's data byte that was changed is one of the second codeword.
pub fn example_page_in_image()
    ensures length { length page_image ≡ 992 }
    ensures read { read_image page_image ≡ Ok ((saved_small_head, one_page_saved small_head ∷ []), record { place = 992; bytes = [] }) }
    ensures two_words { read_image two_words_page_image
        ≡ Ok ((saved_two_words_head, one_page_saved two_words_head ∷ []), record { place = 992; bytes = [] }) }
    ensures no_codeword { read_image (with_bytes two_words_page_image 893 (3 ∷ [])) ≡ Err (877, sum) }
{}

/// The lists of weak and of factory bad blocks, and the first faults in them: a part out of range, an order, a bad
/// superblock after which the rows don't fit.
pub fn example_image_lists()
    ensures lists { read_lists (2 ∷ 0 ∷ weak_at 0 2 ++ weak_at 2 1 ++ 1 ∷ 0 ∷ bad_at 3 ++ 0 ∷ [])
        ≡ Ok ((record { channel = 0; die = 0; sb = 2; from = 7 } ∷ record { channel = 0; die = 2; sb = 1; from = 7 } ∷ []), ((0, 3) ∷ [])) }
    ensures weak_die { read_lists (1 ∷ 0 ∷ weak_at 3 0) ≡ Err (91, range) }
    ensures weak_superblock { read_lists (1 ∷ 0 ∷ weak_at 0 4) ≡ Err (92, range) }
    ensures weak_order { read_lists (2 ∷ 0 ∷ weak_at 1 0 ++ weak_at 0 3) ≡ Err (98, order) }
    ensures weak_twice { read_lists (2 ∷ 0 ∷ weak_at 1 0 ++ weak_at 1 0) ≡ Err (98, order) }
    ensures weak_short { read_lists (2 ∷ 0 ∷ weak_at 1 0 ++ take 7 (weak_at 1 0)) ≡ Err (105, short) }
    ensures bad_zero { read_lists (0 ∷ 0 ∷ 1 ∷ 0 ∷ 0 ∷ 1 ∷ 0 ∷ 0 ∷ []) ≡ Err (93, range) }
    ensures bad_order { read_lists (0 ∷ 0 ∷ 2 ∷ 0 ∷ bad_at 3 ++ bad_at 3) ≡ Err (96, order) }
    ensures bad_fit { read_lists (0 ∷ 0 ∷ 2 ∷ 0 ∷ bad_at 2 ++ bad_at 3) ≡ Err (96, range) }
{}

/// The first faults in the contents of an image, of a superblock without pages and of one with a page.
pub fn example_contents_faults()
    ensures state { read_image (with_bytes saved_small_image 94 (5 ∷ [])) ≡ Err (94, state) }
    ensures erases { read_image (with_bytes saved_small_image 95 (1 ∷ 0 ∷ 0 ∷ 128 ∷ [])) ≡ Err (95, range) }
    ensures used { read_image (with_bytes saved_small_image 99 (1 ∷ [])) ≡ Err (99, count) }
    ensures programmed { read_image (with_bytes saved_small_image 105 (1 ∷ [])) ≡ Err (105, count) }
    ensures bad_programmed { read_image (take 108 (with_bytes (with_bytes saved_small_image 94 (3 ∷ [])) 103 (3 ∷ [])))
        ≡ Err (103, count) }
    ensures level { read_image (take 111 (with_bytes (with_bytes (with_bytes saved_small_image 94 (3 ∷ [])) 103 (1 ∷ [])) 109 (0 ∷ 128 ∷ [])))
        ≡ Err (109, range) }
    ensures second_frontier { read_image (with_bytes page_image 925 (1 ∷ [])) ≡ Err (925, state) }
    ensures no_codeword { read_image (with_bytes page_image 877 (1 ∷ [])) ≡ Err (877, sum) }
    ensures row_kind { read_image (with_bytes saved_small_image 154 (3 ∷ [])) ≡ Err (154, row) }
    ensures row_superblock { read_image (take 157 (with_bytes saved_small_image 154 (1 ∷ 4 ∷ 0 ∷ []))) ≡ Err (154, row) }
    ensures row_index { read_image (take 161 (with_bytes saved_small_image 154 (1 ∷ 0 ∷ 0 ∷ 0 ∷ 0 ∷ 0 ∷ 0 ∷ []))) ≡ Err (154, row) }
    ensures row_repeated { read_image (take 990 page_image ++ 1 ∷ 0 ∷ 0 ∷ 0 ∷ 0 ∷ 0 ∷ 0 ∷ 9 ∷ []) ≡ Err (990, row) }
    ensures row_short { read_image (take 987 page_image) ≡ Err (987, short) }
{}

/// An input is an image and then a trace: what it gives, and the status of its first fault.
pub fn example_input()
    ensures given { read_input (small_image ++ lines_text (codes "trace 1 1" ∷ codes "0 write 5 x0102" ∷ codes "0 read 5" ∷ []))
        ≡ Ok (record { head = small_head; channels = blank_channel small_head 0 ∷ []; calls = one_page_calls }) }
    ensures no_image { read_input [] ≡ Err (image 0 short) }
    ensures no_trace { read_input small_image ≡ Err (trace 1 first) }
    ensures no_page { read_input (small_image ++ lines_text (codes "trace 1 1" ∷ codes "0 write 8 x00" ∷ []))
        ≡ Err (trace 2 out_of_range) }
{}
