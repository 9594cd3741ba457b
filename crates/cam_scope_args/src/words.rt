//! What the words of `camscope` ask for.
ghost use Rattle.std.specs.Prelude.{◌≡◌, ◌≤◌, ◌&&◌, ◌||◌, ◌∷◌, ◌++◌, ℕ, Bool, List, [], codes, is_some, length, IfNone, IfSome, map, string_bytes};
ghost use Rattle.std.specs.List.{list_all, list_any};
ghost use Rattle.cam_scope_args.specs.Forms.{is_dashed, is_digit, is_number, is_option, AreWordsOf, IsForm, IsLit, IsNoForm, IsOption, IsPlain, TakesSoMany};
ghost use Rattle.cam_scope_args.specs.Tests.{are_files, are_numbers, are_two, is_asked, is_form, is_kept, is_lit, is_none, is_one_at_most, is_plain, is_swept, leading_options, takes_option};

use crate::question::{Lit, Question};

/// What the words ask for.
#[derive(Clone, Copy, Debug)]
pub enum Request<'a> {
    /// To tell something of each of these files, or of standard input where there is none.
    Tell(Question<'a>, &'a [String]),
    /// To write the script that is made from a seed, of so many steps: both are written in digits.
    Gen(&'a str, &'a str),
    Help,
    Version,
}

/// What the words after the program's name ask for: the request whose form they are, and nothing
/// exactly where they are no form.
#[tactic(auto, using(crate::proofs::Forms::without_form))]
pub fn read_words<'a>(words: &'a [String]) -> Option<Request<'a>>
    ensures read { IfSome result (IsForm (map string_bytes words.now)) }
    ensures none { IfNone result (IsNoForm (map string_bytes words.now)) }
{
    let request = request_of(words);
    request
}

/// The request of the words, by the first of them.
fn request_of<'a>(words: &'a [String]) -> Option<Request<'a>>
    ensures read { IfSome result (IsForm (map string_bytes words.now)) }
    ensures form { is_some result ≡ is_form (map string_bytes words.now) }
{
    let Some((first, rest)) = words.split_first() else {
        return None;
    };
    match first.as_str() {
        "--help" => alone(Request::Help, rest),
        "--version" => alone(Request::Version, rest),
        "gen" => made(rest),
        "check" => checked(rest),
        "sweep" => swept(rest),
        "compare" => compared(rest),
        _ => of_one(first.as_str(), rest),
    }
}

/// A request that has no further words.
fn alone<'a>(request: Request<'a>, rest: &'a [String]) -> Option<Request<'a>>
    ensures read { IfSome result (λ r. (r ≡ request.entry) × (map string_bytes rest.now ≡ [])) }
    ensures form { is_some result ≡ is_none (map string_bytes rest.now) }
{
    match rest {
        [] => Some(request),
        _ => None,
    }
}

/// The script that is made from a seed.
fn made<'a>(words: &'a [String]) -> Option<Request<'a>>
    ensures read { IfSome result (IsForm (codes "gen" ∷ map string_bytes words.now)) }
    ensures form { is_some result ≡ are_numbers (map string_bytes words.now) }
{
    match words {
        [seed, size] if is_number(seed.as_bytes()) && is_number(size.as_bytes()) => {
            Some(Request::Gen(seed.as_str(), size.as_str()))
        }
        _ => None,
    }
}

/// Whether scripts keep their expectations.
fn checked<'a>(files: &'a [String]) -> Option<Request<'a>>
    ensures read { IfSome result (IsForm (codes "check" ∷ map string_bytes files.now)) }
    ensures form { is_some result ≡ are_files (map string_bytes files.now) }
{
    let request = of_files(Question::Check, files);
    request
}

/// Two scripts that are compared.
fn compared<'a>(files: &'a [String]) -> Option<Request<'a>>
    ensures read { IfSome result (IsForm (codes "compare" ∷ map string_bytes files.now)) }
    ensures form { is_some result ≡ are_two (map string_bytes files.now) }
{
    match files {
        [_, _] => {
            let request = of_files(Question::Compare, files);
            request
        }
        _ => None,
    }
}

/// A sweep of one script at most. Its options stand before the file.
fn swept<'a>(words: &'a [String]) -> Option<Request<'a>>
    ensures read { IfSome result (IsForm (codes "sweep" ∷ map string_bytes words.now)) }
    ensures form { is_some result ≡ is_swept (map string_bytes words.now) }
{
    let many = leading_options(words);
    let files = &words[many..];
    if files.len() <= 1 {
        of_files(Question::Sweep(&words[..many]), files)
    } else {
        None
    }
}

/// With how many options of a sweep words begin.
fn leading_options(words: &[String]) -> usize
    ensures many { result ≡ leading_options (map string_bytes words.now) }
    ensures within { result ≤ length words.now }
{
    let mut many = 0;
    for word in words {
        if !is_option(word.as_str()) {
            return many;
        }
        many += 1;
    }
    many
}

/// Whether a word is an option of a sweep: a kind of faults, or a number.
fn is_option(word: &str) -> bool
    ensures { result ≡ is_option word.now }
{
    match word {
        "--restart" | "--stop" | "--lose" | "--repeat" | "--show" => true,
        _ => is_number(word.as_bytes()),
    }
}

/// A question of files.
fn of_files<'a>(question: Question<'a>, files: &'a [String]) -> Option<Request<'a>>
    ensures read { (words : List (List ℕ)) → AreWordsOf words question.entry (map string_bytes files.now)
        → TakesSoMany question.entry (map string_bytes files.now) → IfSome result (IsForm words) }
    ensures form { is_some result ≡ are_files (map string_bytes files.now) }
{
    if has_dashed(files) {
        None
    } else {
        Some(Request::Tell(question, files))
    }
}

/// A question of one file at most, by its word. An option stands before the file or behind it.
fn of_one<'a>(word: &str, rest: &'a [String]) -> Option<Request<'a>>
    ensures read { IfSome result (IsForm (word.now ∷ map string_bytes rest.now)) }
    ensures form { is_some result ≡ is_asked word.now (map string_bytes rest.now) }
{
    match rest {
        [option, value] => with_option(word, option.as_str(), value.as_str(), &rest[2..]),
        [first, second, third] => {
            let before = with_option(word, first.as_str(), second.as_str(), &rest[2..]);
            if before.is_some() {
                before
            } else {
                with_option(word, second.as_str(), third.as_str(), &rest[..1])
            }
        }
        _ => without_option(word, rest),
    }
}

/// A question without an option, of one file at most.
fn without_option<'a>(word: &str, files: &'a [String]) -> Option<Request<'a>>
    ensures read { IfSome result (IsForm (word.now ∷ map string_bytes files.now)) }
    ensures form { is_some result ≡ (is_plain word.now
        && (is_one_at_most (map string_bytes files.now) && are_files (map string_bytes files.now))) }
{
    let question = plain(word)?;
    if files.len() <= 1 {
        of_files(question, files)
    } else {
        None
    }
}

/// The question of a word that has no option.
fn plain<'a>(word: &str) -> Option<Question<'a>>
    ensures plain { IfSome result (IsPlain word.now) }
    ensures form { is_some result ≡ is_plain word.now }
{
    match word {
        "explain" => Some(Question::Explain),
        "columns" => Some(Question::Columns),
        "draw" => Some(Question::Draw(Lit::All)),
        "shiviz" => Some(Question::Shiviz),
        "orders" => Some(Question::Orders),
        _ => None,
    }
}

/// A question with an option and its value.
fn with_option<'a>(
    word: &str,
    option: &str,
    value: &'a str,
    files: &'a [String],
) -> Option<Request<'a>>
    requires few { length (map string_bytes files.now) ≤ 1 }
    ensures before { IfSome result
        (IsForm (word.now ∷ option.now ∷ value.now ∷ map string_bytes files.now)) }
    ensures behind { IfSome result
        (IsForm (word.now ∷ map string_bytes files.now ++ option.now ∷ value.now ∷ [])) }
    ensures form { is_some result
        ≡ (takes_option word.now option.now value.now && are_files (map string_bytes files.now)) }
{
    let question = optional(word, option, value)?;
    of_files(question, files)
}

/// The question of a word with an option and its value.
fn optional<'a>(word: &str, option: &str, value: &'a str) -> Option<Question<'a>>
    ensures option { IfSome result (IsOption word.now option.now value.now) }
    ensures form { is_some result ≡ takes_option word.now option.now value.now }
{
    match word {
        "draw" => Some(Question::Draw(lit(option, value)?)),
        "shrink" => kept(option, value),
        _ => None,
    }
}

/// What a picture lights up by an option.
fn lit<'a>(option: &str, value: &'a str) -> Option<Lit<'a>>
    ensures lit { IfSome result (IsLit option.now value.now) }
    ensures form { is_some result ≡ is_lit option.now value.now }
{
    match option {
        "--action" if !is_dashed(value.as_bytes()) => Some(Lit::Action(value)),
        "--stop" if is_number(value.as_bytes()) => Some(Lit::Stop(value)),
        _ => None,
    }
}

/// The line that the smallest script keeps, by an option.
fn kept<'a>(option: &str, line: &'a str) -> Option<Question<'a>>
    ensures kept { IfSome result (IsOption (codes "shrink") option.now line.now) }
    ensures form { is_some result ≡ is_kept option.now line.now }
{
    match option {
        "--keep" if !is_dashed(line.as_bytes()) => Some(Question::Shrink(line)),
        _ => None,
    }
}

/// Whether a word begins with `-`, and so names no file.
fn has_dashed(words: &[String]) -> bool
    ensures { result ≡ list_any is_dashed (map string_bytes words.now) }
{
    for word in words {
        if is_dashed(word.as_bytes()) {
            return true;
        }
    }
    false
}

/// Whether the word begins with `-`.
fn is_dashed(word: &[u8]) -> bool
    ensures { result ≡ is_dashed word.now }
{
    match word.first() {
        Some(first) => *first == b'-',
        None => false,
    }
}

/// Whether a word is a number: digits alone, and at least one.
fn is_number(word: &[u8]) -> bool
    ensures { result ≡ is_number word.now }
{
    match word.split_first() {
        Some((first, rest)) => first.is_ascii_digit() && are_digits(rest),
        None => false,
    }
}

/// Whether all bytes are digits.
fn are_digits(bytes: &[u8]) -> bool
    ensures { result ≡ list_all is_digit bytes.now }
{
    for byte in bytes {
        if !byte.is_ascii_digit() {
            return false;
        }
    }
    true
}
