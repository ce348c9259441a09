ghost use Rattle.std.specs.Prelude.{◌≡◌, [], ◌∷◌};

use crate::word::Word;
use std::marker::Model;

const NO_WORD: Word = Word::Name(b"");

/// Two to six words of a line. Contracts see them as their list.
#[derive(Drop)]
pub struct Words {
    words: [Word; 6],
    count: usize,
}

impl Model for Words {
    ghost use Rattle.std.specs.Prelude.{◌≤◌, List, take};
    ghost use Rattle.history_text.specs.declared.word.Word.{Word};

    ghost Value = { List Word };

    ghost view = { λ w. take w.count w.words };

    ghost invariant = { λ w. w.count ≤ 6 };
}

impl Words {
    pub fn two(first: Word, second: Word) -> Words
        ensures { result ≡ first ∷ second ∷ [] }
    {
        Words {
            words: [first, second, NO_WORD, NO_WORD, NO_WORD, NO_WORD],
            count: 2,
        }
    }

    pub fn three(first: Word, second: Word, third: Word) -> Words
        ensures { result ≡ first ∷ second ∷ third ∷ [] }
    {
        Words {
            words: [first, second, third, NO_WORD, NO_WORD, NO_WORD],
            count: 3,
        }
    }

    pub fn four(first: Word, second: Word, third: Word, fourth: Word) -> Words
        ensures { result ≡ first ∷ second ∷ third ∷ fourth ∷ [] }
    {
        Words {
            words: [first, second, third, fourth, NO_WORD, NO_WORD],
            count: 4,
        }
    }

    pub fn five(first: Word, second: Word, third: Word, fourth: Word, fifth: Word) -> Words
        ensures { result ≡ first ∷ second ∷ third ∷ fourth ∷ fifth ∷ [] }
    {
        Words {
            words: [first, second, third, fourth, fifth, NO_WORD],
            count: 5,
        }
    }

    pub fn six(
        first: Word,
        second: Word,
        third: Word,
        fourth: Word,
        fifth: Word,
        sixth: Word,
    ) -> Words
        ensures { result ≡ first ∷ second ∷ third ∷ fourth ∷ fifth ∷ sixth ∷ [] }
    {
        Words {
            words: [first, second, third, fourth, fifth, sixth],
            count: 6,
        }
    }

    pub fn as_slice(&self) -> &[Word]
        ensures { result.now ≡ self.now }
    {
        &self.words[..self.count]
    }
}
