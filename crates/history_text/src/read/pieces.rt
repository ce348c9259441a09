// Pieces of a text between its separators: the words of a line, and the numbers of a word.
ghost use Rattle.std.specs.Prelude.{◌≡◌, ◌<◌, ◌∷◌, length, option_copied, position, IfSome};
ghost use Rattle.history_text.specs.Pieces.{is_byte, pieces_of, pieces_left};
ghost use Rattle.history_text.specs.Pieces.{next_piece as next_of_pieces};
ghost use Rattle.history_text.specs.Pieces.{only_piece as only_of_pieces};
ghost use Rattle.history_text.specs.Pieces.{two_pieces as two_of_pieces};
ghost use Rattle.history_text.specs.Pieces.{three_pieces as three_of_pieces};
ghost use Rattle.history_text.specs.Pieces.{four_pieces as four_of_pieces};
ghost use Rattle.history_text.specs.Pieces.{five_pieces as five_of_pieces};
ghost use Rattle.history_text.specs.Pieces.{next_of, two_of, three_of, four_of, five_of};

/// What stands between the words of a line.
pub const SPACE: u8 = b' ';

/// What stands between the numbers of a word.
pub const FULL_STOP: u8 = b'.';

fn first_of(separator: u8, text: &[u8]) -> Option<usize>
    ensures { result ≡ position (is_byte separator) text.now }
{
    text.iter().position(|byte| *byte == separator)
}

/// The first piece of a text, and the text behind the separator after it, where there is one.
#[tactic(auto, using(crate::proofs::Cutting::cut_at, crate::proofs::Cutting::cut_nowhere))]
pub fn cut(separator: u8, text: &[u8]) -> (&[u8], Option<&[u8]>)
    ensures pieces { pieces_of separator text.now ≡ result.0.now ∷ pieces_left separator (option_copied result.1) }
    ensures shorter { IfSome result.1 (λ behind. length behind.now < length text.now) }
{
    match first_of(separator, text) {
        Some(at) => (&text[..at], Some(&text[at + 1..])),
        None => (text, None),
    }
}

/// The next piece of what is left, and what is left behind it.
pub fn next_piece(separator: u8, left: Option<&[u8]>) -> Option<(&[u8], Option<&[u8]>)>
    ensures { next_of separator result ≡ next_of_pieces (pieces_left separator (option_copied left.entry)) }
{
    Some(cut(separator, left?))
}

/// The only piece that is left.
#[tactic(auto, using(crate::proofs::Cutting::no_only_piece))]
pub fn only_piece(separator: u8, left: Option<&[u8]>) -> Option<&[u8]>
    ensures { option_copied result ≡ only_of_pieces (pieces_left separator (option_copied left.entry)) }
{
    match next_piece(separator, left)? {
        (piece, None) => Some(piece),
        (_, Some(_)) => None,
    }
}

/// The only two pieces that are left.
pub fn two_pieces(separator: u8, left: Option<&[u8]>) -> Option<(&[u8], &[u8])>
    ensures { two_of result ≡ two_of_pieces (pieces_left separator (option_copied left.entry)) }
{
    let (first, left) = next_piece(separator, left)?;
    Some((first, only_piece(separator, left)?))
}

/// The only three pieces that are left.
pub fn three_pieces(separator: u8, left: Option<&[u8]>) -> Option<(&[u8], &[u8], &[u8])>
    ensures { three_of result ≡ three_of_pieces (pieces_left separator (option_copied left.entry)) }
{
    let (first, left) = next_piece(separator, left)?;
    let (second, third) = two_pieces(separator, left)?;
    Some((first, second, third))
}

/// The only four pieces that are left.
pub fn four_pieces(separator: u8, left: Option<&[u8]>) -> Option<(&[u8], &[u8], &[u8], &[u8])>
    ensures { four_of result ≡ four_of_pieces (pieces_left separator (option_copied left.entry)) }
{
    let (first, left) = next_piece(separator, left)?;
    let (second, third, fourth) = three_pieces(separator, left)?;
    Some((first, second, third, fourth))
}

/// The only five pieces that are left.
pub fn five_pieces(
    separator: u8,
    left: Option<&[u8]>,
) -> Option<(&[u8], &[u8], &[u8], &[u8], &[u8])>
    ensures { five_of result ≡ five_of_pieces (pieces_left separator (option_copied left.entry)) }
{
    let (first, left) = next_piece(separator, left)?;
    let (second, third, fourth, fifth) = four_pieces(separator, left)?;
    Some((first, second, third, fourth, fifth))
}
