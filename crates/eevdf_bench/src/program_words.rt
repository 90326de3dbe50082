//! What the words of any of the programs ask for, before they are read as its own.

ghost use Rattle.std.specs.Prelude.{◌≡◌, ◌<◌, IfSome, length, map, string_bytes};
ghost use Rattle.eevdf_bench.specs.ProgramWords as spec;

/// Whether one of a program's words, behind its name, is this one, as `--help`.
pub fn asks_for(words: &[String], asked: &str) -> bool
    ensures { result ≡ spec.asks_for asked.now (map string_bytes words.now) }
{
    match words {
        [_, behind @ ..] => is_among(asked, behind),
        [] => false,
    }
}

fn is_among(asked: &str, words: &[String]) -> bool
    ensures { result ≡ spec.is_among asked.now (map string_bytes words.now) }
{
    let mut left = words;
    'words: while let [word, after @ ..] = left {
        if word.as_str() == asked {
            return true;
        }
        left = after;
    }
    false
}

/// Whether a word may be the name of a file, as of each program: it isn't empty and doesn't begin with `-`.
pub fn may_name_file(word: &str) -> bool
    ensures { result ≡ spec.may_name_file word.now }
{
    match word.as_bytes() {
        [first, ..] => *first != b'-',
        [] => false,
    }
}

/// Takes the name of a file out of a program's words, from a place on: the first word that may be one, or `-`, which stands for standard
/// input, and isn't the value of one of these flags.
pub fn take_file(words: &mut Vec<String>, from: usize, with_value: &[&str]) -> Option<String> {
    let at = file_at(words, from, with_value)?;
    Some(words.remove(at))
}

/// Takes a flag out of a program's words, from a place on, and says whether it was there. Where it stands twice, the second stays.
pub fn take_flag(words: &mut Vec<String>, from: usize, flag: &str) -> bool {
    match flag_at(words, from, flag) {
        Some(at) => {
            let _ = words.remove(at);
            true
        }
        None => false,
    }
}

fn flag_at(words: &[String], from: usize, flag: &str) -> Option<usize>
    ensures { IfSome result (λ at. at < length words.now) }
{
    for at in from..words.len() {
        if words[at].as_str() == flag {
            return Some(at);
        }
    }
    None
}

/// The name of the file that a workload is read from, or `None` of standard input.
pub fn named_file(word: &Option<String>) -> Option<&str> {
    match word {
        Some(name) if name.as_str() != "-" => Some(name.as_str()),
        _ => None,
    }
}

/// Whether a word is this flag, or this flag with its value behind a `=`.
pub fn is_flag(word: &str, flag: &str) -> bool {
    match word.strip_prefix(flag) {
        Some(left) => left.is_empty() || left.starts_with("="),
        None => false,
    }
}

fn is_one_of(flags: &[&str], word: &str) -> bool {
    for at in 0..flags.len() {
        if flags[at] == word {
            return true;
        }
    }
    false
}

fn file_at(words: &[String], from: usize, with_value: &[&str]) -> Option<usize>
    ensures { IfSome result (λ at. at < length words.now) }
{
    for at in from..words.len() {
        let is_value = at > 0 && is_one_of(with_value, words[at - 1].as_str());
        let word = words[at].as_str();
        if !is_value && (word == "-" || may_name_file(word)) {
            return Some(at);
        }
    }
    None
}
