//! The generated work of a number at values that were computed apart.
ghost use Rattle.std.specs.Prelude.{◌≡◌, map, flat_map, take, drop, None, length};
ghost use Rattle.ssd_geo.specs.BaseMatrix.{first_fault};
ghost use Rattle.ssd_formats.specs.GeneratedExamples.{first_row_of_one, last_row_of_one, calls_of_one, lines_of_one};
ghost use Rattle.ssd_formats.specs.GeneratedWork.{generated_head, generated_line, generated_row};
ghost use Rattle.ssd_formats.specs.ImageHead.{first_head_bytes, matrix_of_head};
ghost use Rattle.ssd_formats.specs.TextExamples.{lines_text};

/// Parts of the base matrix and of the trace that the number 1 gives.
pub fn example_generated_work()
    ensures first_row { take 16 (generated_row 1 0) ≡ first_row_of_one }
    ensures last_row { drop 57 (generated_row 1 7) ≡ last_row_of_one }
    ensures calls { flat_map (generated_line 1) calls_of_one ≡ lines_text lines_of_one }
{}

/// The base matrix that the number 1 gives has no fault, and its image's head takes 1,229 bytes.
pub fn example_generated_head()
    ensures accepted { first_fault (matrix_of_head (generated_head 1)) ≡ None }
    ensures bytes { length (first_head_bytes (generated_head 1)) ≡ 1229 }
{}
