//! Options and operands among the words of a call.

ghost use Rattle.std.specs.Prelude.{◌≡◌, ◌≤◌, ◌<◌, ◌^◌, ◌-◌, ◌∷◌, ◌++◌, [], List, min, not, ◌||◌, IfSome, map, string_bytes};
ghost use Rattle.std.specs.Option.{option_map, option_to_list};
ghost use Rattle.fy_words.specs.Order.{is_option, operands, behind, values, has_key, are_known, name_of, number_in, only_operand, both_operands, both_names, at_most_once, flag, number_from};
ghost use Rattle.fy_base.specs.Outside.{Bytes};
ghost use Rattle.fy_words.specs.Words.{AreFound};

// What was found among words: nothing, one text, two, or three and more.
#[derive(Clone, Copy)]
pub(crate) enum Found<'a> {
    Nothing,
    Once(&'a str),
    Twice(&'a str, &'a str),
    Often,
}

impl<'a> Found<'a> {
    // With one text more.
    fn and(self, text: &'a str) -> Found<'a>
        ensures { (texts : List Bytes) → AreFound self.entry texts → AreFound result (texts ++ text.now ∷ []) }
    {
        match self {
            Found::Nothing => Found::Once(text),
            Found::Once(first) => Found::Twice(first, text),
            Found::Twice(..) | Found::Often => Found::Often,
        }
    }

    // The only text, if it has a byte or more.
    fn only(self) -> Option<&'a str>
        ensures { (texts : List Bytes) → AreFound self.entry texts → option_map (λ text. text.now) result ≡ only_operand texts }
    {
        match self {
            Found::Once(text) if !text.is_empty() => Some(text),
            _ => None,
        }
    }

    // The two texts, if they are two.
    fn both(self) -> Option<(&'a str, &'a str)>
        ensures { (texts : List Bytes) → AreFound self.entry texts → option_map (λ both. (both.0.now, both.1.now)) result ≡ both_operands texts }
    {
        match self {
            Found::Twice(first, second) => Some((first, second)),
            _ => None,
        }
    }

    // The two texts, if they are two and each has a byte or more.
    fn both_named(self) -> Option<(&'a str, &'a str)>
        ensures { (texts : List Bytes) → AreFound self.entry texts → option_map (λ both. (both.0.now, both.1.now)) result ≡ both_names texts }
    {
        match self {
            Found::Twice(first, second) if !first.is_empty() && !second.is_empty() => {
                Some((first, second))
            }
            _ => None,
        }
    }
}

// Whether a word is an option.
fn is_option(word: &str) -> bool
    ensures { result ≡ is_option word.now }
{
    word.starts_with("--")
}

// With the word, if it is an operand.
fn with_operand<'a>(found: Found<'a>, word: &'a str) -> Found<'a>
    ensures { (texts : List Bytes) → AreFound found.entry texts → AreFound result (texts ++ operands (word.now ∷ [])) }
{
    if is_option(word) {
        return found;
    }
    found.and(word)
}

// The operands.
fn operands(words: &[String]) -> Found<'_>
    ensures { AreFound result (operands (map string_bytes words.now)) }
{
    let mut found = Found::Nothing;
    for word in words {
        found = with_operand(found, word.as_str());
    }
    found
}

// What stands behind the key in a word that begins with it.
fn behind<'a>(key: &str, word: &'a str) -> Option<&'a str>
    ensures { option_map (λ rest. rest.now) result ≡ behind key.now word.now }
{
    word.strip_prefix(key)
}

// With what stands behind the key in the word, if it begins with it.
fn with_value<'a>(found: Found<'a>, key: &str, word: &'a str) -> Found<'a>
    ensures { (texts : List Bytes) → AreFound found.entry texts → AreFound result (texts ++ option_to_list (behind key.now word.now)) }
{
    let Some(value) = behind(key, word) else {
        return found;
    };
    found.and(value)
}

// The values of an option.
fn values<'a>(key: &str, words: &'a [String]) -> Found<'a>
    ensures { AreFound result (values key.now (map string_bytes words.now)) }
{
    let mut found = Found::Nothing;
    for word in words {
        found = with_value(found, key, word.as_str());
    }
    found
}

// Whether a word begins with one of the keys.
fn has_key(keys: &[&str], word: &str) -> bool
    ensures { result ≡ has_key (map (λ key. key.now) keys.now) word.now }
{
    for key in keys {
        if word.starts_with(*key) {
            return true;
        }
    }
    false
}

// Whether a word is no option, or has one of the keys.
fn is_known(keys: &[&str], word: &str) -> bool
    ensures { result ≡ (not (is_option word.now) || has_key (map (λ key. key.now) keys.now) word.now) }
{
    if is_option(word) {
        return has_key(keys, word);
    }
    true
}

/// Whether each option has one of the keys.
pub(crate) fn are_known(keys: &[&str], words: &[String]) -> bool
    ensures { result ≡ are_known (map (λ key. key.now) keys.now) (map string_bytes words.now) }
{
    for word in words {
        if !is_known(keys, word.as_str()) {
            return false;
        }
    }
    true
}

/// The one operand.
pub(crate) fn only_operand(words: &[String]) -> Option<&str>
    ensures { option_map (λ word. word.now) result ≡ only_operand (operands (map string_bytes words.now)) }
{
    operands(words).only()
}

/// The two operands.
pub(crate) fn both_operands(words: &[String]) -> Option<(&str, &str)>
    ensures { option_map (λ both. (both.0.now, both.1.now)) result ≡ both_operands (operands (map string_bytes words.now)) }
{
    operands(words).both()
}

/// The two operands, if both are names.
pub(crate) fn both_names(words: &[String]) -> Option<(&str, &str)>
    ensures { option_map (λ both. (both.0.now, both.1.now)) result ≡ both_names (operands (map string_bytes words.now)) }
{
    operands(words).both_named()
}

/// The value of an option that is a name, or `None` where it isn't in form or stands twice.
pub(crate) fn name_option<'a>(key: &str, words: &'a [String]) -> Option<Option<&'a str>>
    ensures { option_map (λ name. option_map (λ text. text.now) name) result ≡ at_most_once name_of (values key.now (map string_bytes words.now)) }
{
    match values(key, words) {
        Found::Nothing => Some(None),
        Found::Once(name) if !name.is_empty() => Some(Some(name)),
        _ => None,
    }
}

/// Whether an option without a value stands among the words, or `None` where it has one or stands
/// twice.
pub(crate) fn flag(key: &str, words: &[String]) -> Option<bool>
    ensures { result ≡ flag (values key.now (map string_bytes words.now)) }
{
    match values(key, words) {
        Found::Nothing => Some(false),
        Found::Once(rest) if rest.is_empty() => Some(true),
        _ => None,
    }
}

// The number that digits write, or 2^64 - 1 where it is greater.
fn number_of(text: &str) -> u64
    ensures { result ≡ min (number_from 0 text.now) (2 ^ 64 - 1) }
{
    let mut number: u64 = 0;
    for digit in text.as_bytes() {
        number = number
            .saturating_mul(10)
            .saturating_add(u64::from(digit.saturating_sub(b'0')));
    }
    number
}

/// The number in a range that is written so, in plain decimal.
pub(crate) fn number_in(least: u64, most: u64, text: &str) -> Option<u64>
    requires { most < 2 ^ 63 }
    ensures number { result ≡ number_in least most text.now }
    ensures within { IfSome result (λ n. (least ≤ n) × (n ≤ most)) }
{
    let number = number_of(text);
    let mut digits = itoa::Buffer::new();
    if least <= number && number <= most && digits.format(number) == text {
        Some(number)
    } else {
        None
    }
}

/// The value of an option that is a number in a range, or `None` where it isn't in form or stands
/// twice.
pub(crate) fn number_option(
    key: &str,
    least: u64,
    most: u64,
    words: &[String],
) -> Option<Option<u64>>
    requires { most < 2 ^ 63 }
    ensures number { result ≡ at_most_once (number_in least most) (values key.now (map string_bytes words.now)) }
    ensures within { IfSome result (λ number. IfSome number (λ n. (least ≤ n) × (n ≤ most))) }
{
    match values(key, words) {
        Found::Nothing => Some(None),
        Found::Once(text) => match number_in(least, most, text) {
            Some(number) => Some(Some(number)),
            None => None,
        },
        _ => None,
    }
}
