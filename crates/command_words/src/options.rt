// Options among the words: `--name=value`.
ghost use Rattle.std.specs.Prelude.{◌≡◌, bytes_eq, option_copied, option_map, position};
ghost use Rattle.std.specs.List.{list_any};
ghost use Rattle.ssd_formats.specs.Words.{are_named_once as are_named_once_in, is_equals_sign, is_named as is_named_so, is_value as is_value_text, serving_names, setting_of, setting_of_word, value_named as value_named_in};
ghost use Rattle.command_words.specs.Options.{are_options as are_options_in, is_named_last as is_named_last_in, is_option as is_option_text, names_of, options_in, value_in_word};

use ssd_geo::Word;

fn is_value(text: &[u8]) -> bool
    ensures { result ≡ is_value_text text.now }
{
    match text {
        [] => false,
        [first, ..] => *first != b'-',
    }
}

fn equals_sign(text: &[u8]) -> Option<usize>
    ensures { result ≡ position is_equals_sign text.now }
{
    text.iter().position(|byte| *byte == b'=')
}

// The name and the value of `name=value`.
fn name_and_value(text: &[u8]) -> Option<(&[u8], &[u8])>
    ensures { option_map (λ option. (option.0.now, option.1.now)) result ≡ setting_of text.now }
{
    let at = equals_sign(text)?;
    let value = &text[at + 1..];
    if is_value(value) {
        Some((&text[..at], value))
    } else {
        None
    }
}

// The name and the value of a word, if it is an option.
fn option_of(word: &[u8]) -> Option<(&[u8], &[u8])>
    ensures { option_map (λ option. (option.0.now, option.1.now)) result ≡ setting_of_word word.now }
{
    match word {
        [b'-', b'-', option @ ..] => name_and_value(option),
        _ => None,
    }
}

fn is_option(word: &Word) -> bool
    ensures { result ≡ is_option_text word.now }
{
    option_of(word.bytes()).is_some()
}

/// Whether each of the words is an option.
pub fn are_options(words: &[Word]) -> bool
    ensures { result ≡ are_options_in words.now }
{
    words.iter().all(|word| is_option(word))
}

// The value of a word, if it is an option of this name.
fn value_in<'a>(word: &'a Word, name: &[u8]) -> Option<&'a [u8]>
    ensures { option_copied result ≡ value_in_word name.now word.now }
{
    let (given, value) = option_of(word.bytes())?;
    if given == name { Some(value) } else { None }
}

/// The value of this name, where it stands among the words.
pub fn value_named<'a>(words: &'a [Word], name: &[u8]) -> Option<&'a [u8]>
    ensures { option_copied result ≡ value_named_in name.now (options_in words.now) }
{
    for word in words {
        if let Some(value) = value_in(word, name) {
            return Some(value);
        }
    }
    None
}

// Whether an option among the words has this name.
fn is_named(words: &[Word], name: &[u8]) -> bool
    ensures { result ≡ list_any (is_named_so name.now) (options_in words.now) }
{
    value_named(words, name).is_some()
}

/// The names that the options of a command have.
#[derive(Clone, Copy)]
pub enum Names {
    /// Those of `run`.
    Run,
    /// Those of `race` and `save`.
    Serving,
    /// That of `gen`.
    Gen,
}

fn is_of_serving(name: &[u8]) -> bool
    ensures { result ≡ list_any (bytes_eq name.now) serving_names }
{
    name == b"policy".as_slice() || name == b"lanes".as_slice() || name == b"history".as_slice()
}

impl Names {
    fn has(self, name: &[u8]) -> bool
        ensures { result ≡ list_any (bytes_eq name.now) (names_of self) }
    {
        match self {
            Names::Run => name == b"show".as_slice() || is_of_serving(name),
            Names::Serving => is_of_serving(name),
            Names::Gen => name == b"number".as_slice(),
        }
    }
}

// Whether the name of a word, if it is an option, is one of these and stands in no later word.
fn is_named_last(word: &Word, names: Names, later: &[Word]) -> bool
    ensures { result ≡ is_named_last_in (names_of names) (options_in later.now) word.now }
{
    match option_of(word.bytes()) {
        Some((name, _)) => names.has(name) && !is_named(later, name),
        None => true,
    }
}

/// Whether each option among the words has one of these names, and no name stands twice.
pub fn are_named_once(words: &[Word], names: Names) -> bool
    ensures { result ≡ are_named_once_in (names_of names) (options_in words.now) }
{
    for (i, word) in words.iter().enumerate() {
        if !is_named_last(word, names, &words[i + 1..]) {
            return false;
        }
    }
    true
}
