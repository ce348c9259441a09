ghost use Rattle.ssd_geo.specs.Codewords.{WordBeginsWithPayload, WordIsCodeword, WordIsOnlyCodeword};

use qc_matrix::Code;

/// What holds of the words of every payload, for each code: it does nothing.
pub fn word_laws(code: &Code)
    ensures codeword { WordIsCodeword code.now }
    ensures begins { WordBeginsWithPayload code.now }
    ensures only { WordIsOnlyCodeword code.now }
{
    let _ = code.z();
}
