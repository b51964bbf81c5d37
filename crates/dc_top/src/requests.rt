//! What the words of a command line ask for.
#![tactic(auto, unfolding(crate::specs::Requests::request_of))]

ghost use Rattle.std.specs.Prelude.{◌≡◌, [], ◌∷◌, bytes_eq, map, string_bytes};
ghost use Rattle.dc_top.specs.Requests.{asked, gen_number};
ghost use Rattle.dc_top.specs.Requests as spec;

use dc_text::number;

/// What the words of a command line ask for; a file is given by its name.
#[derive(Clone, Copy, Debug, PartialEq, Eq)]
pub enum Request<'a> {
    Play {
        image: &'a str,
        script: &'a str,
        schedule: &'a str,
    },
    Run {
        image: &'a str,
        script: &'a str,
    },
    Gen(u16),
}

fn is_form(word: &str, name: &str) -> bool
    ensures { result ≡ bytes_eq name.now word.now }
{
    name.as_bytes() == word.as_bytes()
}

/// The number of a generated input: 1 to 5 decimal digits, and at most 65,535.
#[tactic(auto, unfolding(crate::specs::Requests::gen_number))]
fn read_number(word: &str) -> Option<u16>
    ensures { result ≡ gen_number word.now }
{
    let word = word.as_bytes();
    if word.len() > 5 {
        return None;
    }
    match number(word) {
        Some(n) => { if n <= 65535 { Some(n as u16) } else { None } }
        None => None,
    }
}

/// The forms with one word behind the name.
fn with_one<'a>(form: &str, first: &'a str) -> Option<Request<'a>>
    ensures { asked result ≡ spec.request_of (form.now ∷ first.now ∷ []) }
{
    if is_form(form, "gen") {
        match read_number(first) {
            Some(n) => Some(Request::Gen(n)),
            None => None,
        }
    } else {
        None
    }
}

/// The forms with two words behind the name.
fn with_two<'a>(form: &str, first: &'a str, second: &'a str) -> Option<Request<'a>>
    ensures { asked result ≡ spec.request_of (form.now ∷ first.now ∷ second.now ∷ []) }
{
    if is_form(form, "run") {
        Some(Request::Run {
            image: first,
            script: second,
        })
    } else {
        None
    }
}

/// The forms with three words behind the name.
fn with_three<'a>(
    form: &str,
    first: &'a str,
    second: &'a str,
    third: &'a str,
) -> Option<Request<'a>>
    ensures { asked result ≡ spec.request_of (form.now ∷ first.now ∷ second.now ∷ third.now ∷ []) }
{
    if is_form(form, "play") {
        Some(Request::Play {
            image: first,
            script: second,
            schedule: third,
        })
    } else {
        None
    }
}

/// What these words, those behind the program's name, ask for, where they have a form.
pub fn request_of(words: &[String]) -> Option<Request<'_>>
    ensures { asked result ≡ spec.request_of (map string_bytes words.now) }
{
    // Each number of words has an arm of its own, so that the last one holds all longer rows and nothing else.
    match words {
        [] => None,
        [_] => None,
        [form, first] => with_one(form.as_str(), first.as_str()),
        [form, first, second] => with_two(form.as_str(), first.as_str(), second.as_str()),
        [form, first, second, third] => with_three(
            form.as_str(),
            first.as_str(),
            second.as_str(),
            third.as_str(),
        ),
        _ => None,
    }
}
