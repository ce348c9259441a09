//! Laws of payloads, codewords of a page, values of senses and stripe sums. Each is the contract of a function that does nothing.
ghost use Rattle.ssd_geo.specs.PageHead.{PayloadsHaveTheirLength, PayloadsGiveTheirBytes, OnlyPayloadsGiveBytes, HeadsDiffer, SerialsNameTheirCalls};
ghost use Rattle.ssd_geo.specs.PageWord.{CodesAreBack, OneCodeIsTheWord, PartsAreThePayload, WordsAreJoined};
ghost use Rattle.ssd_geo.specs.Senses.{ValuesAreTaken, SensesStandInOrder, FiveSensesAreBack};
ghost use Rattle.ssd_geo.specs.StripeSum.{OthersGiveTheWord, OneMoreWord, SumsHaveTheirLength};

/// A payload has its length and gives its data bytes back, and nothing else gives data bytes.
pub fn payloads_give_their_bytes()
    ensures length { PayloadsHaveTheirLength }
    ensures back { PayloadsGiveTheirBytes }
    ensures alone { OnlyPayloadsGiveBytes }
{}

/// No two serials and rows have one head, and no two calls have one serial.
pub fn heads_differ()
    ensures heads { HeadsDiffer }
    ensures serials { SerialsNameTheirCalls }
{}

/// The codewords of a page are found in its word, and the word is that of its codewords, which begins with its payload.
pub fn codes_make_a_word()
    ensures back { CodesAreBack }
    ensures joined { WordsAreJoined }
    ensures payload { PartsAreThePayload }
    ensures one { OneCodeIsTheWord }
{}

/// The values of senses are from -127 to 127, one for each bit, and senses that stand one after the other are told
/// apart.
pub fn values_are_taken()
    ensures values { ValuesAreTaken }
    ensures places { SensesStandInOrder }
    ensures five { FiveSensesAreBack }
{}

/// Any word of a stripe is the sum of the others and the parity; the sum grows word by word, and has their length.
pub fn others_give_the_word()
    ensures lost { OthersGiveTheWord }
    ensures step { OneMoreWord }
    ensures length { SumsHaveTheirLength }
{}
