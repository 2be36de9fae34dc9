// Whether letters are a given word, and which word of a table they are. No answer here is a place of the template, so the letters alone are lent.
#![tactic(auto)]

ghost use Rattle.std.specs.Prelude.{◌≡◌, length, replicate};
ghost use Rattle.buffer.specs.Bytes.{byte, same};
ghost use Rattle.spelling.specs.Tables.{compared_byte, compared, words_in, find_word};

// What is compared of the byte b: `Color::from_str` lowers what it is given, the crate's other words are compared as they are.
// A `bool` and no closure (d): contracts name the two ways, `compared caseless`, and of a closure each caller would have to be told what it answers.
fn seen_byte(b: u8, caseless: bool) -> u8
    ensures { result ≡ compared_byte caseless b }
{
    if caseless { b.to_ascii_lowercase() } else { b }
}

// Whether `word` is the word w, which is in lower case where `caseless`. Most words differ in length, so that is looked at first.
fn is_word(w: &[u8], word: &[u8], caseless: bool) -> bool
    ensures { result ≡ same w.now (compared caseless word.now) }
{
    w.len() == word.len()
        && w.iter()
            .zip(word)
            .all(|(x, b)| *x == seen_byte(*b, caseless))
}

// The index of the first word of a table that is `word`. A table is the words' lengths, and their letters one after the other: where both are
// constants, the compiler makes comparisons with constants of the loop, which it doesn't where a length stands before each word (b). A length that runs past
// the letters is cut to their end, so that any two lists are a table.
pub fn word_index(lengths: &[u8], letters: &[u8], word: &[u8], caseless: bool) -> Option<usize>
    ensures { result ≡ find_word (words_in lengths.now letters.now) (compared caseless word.now) }
{
    let mut rest = letters;
    for (index, n) in lengths.iter().enumerate() {
        let (w, others) = rest.split_at(rest.len().min(usize::from(*n)));
        if is_word(w, word, caseless) {
            return Some(index);
        }
        rest = others;
    }
    None
}

// Whether `word` is `f` and nothing else: the crate's `"f".repeat(s.len())`.
pub fn is_repeated_f(word: &[u8]) -> bool
    ensures { result ≡ same (replicate (length word.now) (byte "f")) word.now }
{
    word.iter().all(|b| *b == b'f')
}
