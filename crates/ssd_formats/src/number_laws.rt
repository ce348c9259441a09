//! What numbers and their texts are to one another.
ghost use Rattle.ssd_formats.specs.Numbers.{DecimalIsRead, HexIsRead, NumberHasOneText, SignedIsRead};

/// Reading a number's text gives the number back, and what is read as a number is that number's text.
pub fn numbers_are_read()
    ensures read { DecimalIsRead }
    ensures one_text { NumberHasOneText }
    ensures signed { SignedIsRead }
    ensures hex { HexIsRead }
{}
