//! What is wrong with the words of a line that is no step, where that is known to be typed often. A dash stands in the
//! place of its text, if it ends with one.

ghost use Rattle.std.specs.Prelude.{◌≡◌, ◌==◌, ℕ, map};
ghost use Rattle.std.specs.Char.{is_ascii_digit, is_ascii_hexdigit, is_ascii_uppercase};
ghost use Rattle.std.specs.List.{list_all, list_any};
ghost use Rattle.wst_commands.specs.StepWords.{are_fields, are_pairs, data_damage, descend, field_rank, first_damage};
ghost use Rattle.wst_commands.specs.StepWords.{has_capitals, has_field, has_no_field, has_rank, has_star};
ghost use Rattle.wst_commands.specs.StepWords.{has_two_payloads, is_digit_or_star, is_disordered, is_first_word};
ghost use Rattle.wst_commands.specs.StepWords.{is_frame_name};
ghost use Rattle.wst_commands.specs.StepWords.{is_no_data, is_no_field, is_not_above, is_number_to, is_plain_number};
ghost use Rattle.wst_commands.specs.StepWords.{is_repeated_pair, is_reserved_name, is_right_fin, is_right_form};
ghost use Rattle.wst_commands.specs.StepWords.{is_right_key, is_right_rsv, is_small_digit, is_wrong_close};
ghost use Rattle.wst_commands.specs.StepWords.{named_damage, rank_behind, ranked_damage, takes_payload, unless_right};
ghost use Rattle.wst_commands.specs.StepWords.{whole_damage, word_damage_words};

/// The data of a frame stands behind its fields.
const DATA: u8 = 5;

/// What is wrong with the words of a line.
#[derive(Clone, Copy, Debug, PartialEq, Eq)]
pub enum WordDamage {
    /// It names a frame and has no payload.
    NoPayload,
    /// It begins with a word that no line begins with.
    Kind,
    /// It has a field that is none.
    Field,
    /// It has a field behind `raw`.
    Raw,
    /// Behind `close=` is no code.
    Code,
    /// FIN is neither 0 nor 1.
    Fin,
    /// Its reserved bits are above 7, or no number.
    Reserved,
    /// Its masking key is none.
    Key,
    /// Its form has another name, or stands without a key.
    Form,
    /// Its payload is longer than its form allows.
    FormLength,
    /// Its hexadecimal digits are capital.
    Capitals,
    /// Its payload is a text without quotes.
    Unquoted,
    /// A byte that is repeated is no pair of digits, or its count is none.
    Count,
    /// Its digits are no pairs, or stand in several words.
    Pairs,
}

impl WordDamage {
    /// What is printed of the line: the second line says what to type.
    pub(crate) fn words(self) -> &'static str
        ensures { result.now ≡ word_damage_words self }
    {
        match self {
            WordDamage::NoPayload =>
                "not a step\n  the payload stands last, - is an empty one: ping -",
            WordDamage::Kind =>
                "not a step\n  a step begins with text, binary, cont, ping, pong, close, raw, wait or opN",
            WordDamage::Field =>
                "not a step\n  the fields are fin=, rsv=, key= and form=, and a text is quoted: text \"a=b\"",
            WordDamage::Raw => "not a step\n  raw takes no fields: raw 8100",
            WordDamage::Code =>
                "not a step\n  a code is 0 to 65535, without leading zeros: close=1000 \"bye\"",
            WordDamage::Fin => "not a step\n  fin is 0 or 1: text fin=0 \"a\"",
            WordDamage::Reserved =>
                "not a step\n  rsv is 0 to 7, as 4*RSV1 + 2*RSV2 + RSV3: text rsv=4 -",
            WordDamage::Key =>
                "not a step\n  key is eight lower-case digits, or - for no mask: text key=- \"a\"",
            WordDamage::Form =>
                "not a step\n  form is short, two or eight, after key=: text key=- form=two \"a\"",
            WordDamage::FormLength =>
                "not a step\n  form=short holds up to 125 bytes, and form=two up to 65535",
            WordDamage::Capitals => "not a step\n  hexadecimal digits are lower-case: text c3a9",
            WordDamage::Unquoted =>
                "not a step\n  a text is quoted, and bytes are hex: text \"hi\" or text 6869",
            WordDamage::Count =>
                "not a step\n  one pair, and how often it is sent, 1 to 16777216: binary 00*16",
            WordDamage::Pairs =>
                "not a step\n  the payload is one word, of pairs of digits: binary 00ff",
        }
    }
}

/// What is wrong with a line of this first word and these others, whose order is right.
pub(crate) fn named_damage(name: &[u8], fields: &[&[u8]]) -> Option<WordDamage>
    ensures { result ≡ named_damage name.now (map (λ word. word.now) fields.now) }
{
    if takes_payload(name) && are_fields(fields) {
        Some(WordDamage::NoPayload)
    } else if !is_first_word(name) {
        Some(WordDamage::Kind)
    } else if has_no_field(fields) {
        Some(WordDamage::Field)
    } else if name == b"raw".as_slice() && has_field(fields) {
        Some(WordDamage::Raw)
    } else if is_wrong_close(name) {
        Some(WordDamage::Code)
    } else {
        match first_damage(fields) {
            Some(damage) => Some(damage),
            None => whole_damage(fields),
        }
    }
}

/// Whether a line that is no comment begins with this word.
fn is_first_word(word: &[u8]) -> bool
    ensures { result ≡ is_first_word word.now }
{
    takes_payload(word)
        || word.starts_with(b"close=")
        || word == b"wait".as_slice()
        || word == b"chop".as_slice()
}

/// Whether a payload stands behind this word.
fn takes_payload(name: &[u8]) -> bool
    ensures { result ≡ takes_payload name.now }
{
    is_frame_name(name) || is_reserved_name(name) || name == b"raw".as_slice()
}

/// Whether a frame has this name, and its payload behind it.
fn is_frame_name(name: &[u8]) -> bool
    ensures { result ≡ is_frame_name name.now }
{
    name == b"text".as_slice()
        || name == b"binary".as_slice()
        || name == b"cont".as_slice()
        || name == b"close".as_slice()
        || name == b"ping".as_slice()
        || name == b"pong".as_slice()
}

/// Whether it is the name of a reserved opcode.
fn is_reserved_name(name: &[u8]) -> bool
    ensures { result ≡ is_reserved_name name.now }
{
    name == b"op3".as_slice()
        || name == b"op4".as_slice()
        || name == b"op5".as_slice()
        || name == b"op6".as_slice()
        || name == b"op7".as_slice()
        || name == b"op11".as_slice()
        || name == b"op12".as_slice()
        || name == b"op13".as_slice()
        || name == b"op14".as_slice()
        || name == b"op15".as_slice()
}

/// Whether a word begins `close=`, and has no code behind that.
fn is_wrong_close(name: &[u8]) -> bool
    ensures { result ≡ is_wrong_close name.now }
{
    name.starts_with(b"close=") && !is_number_to(b"65535", &name[6..])
}

/// Whether a word is a number that is no larger than the one that the first word tells.
fn is_number_to(most: &[u8], word: &[u8]) -> bool
    ensures { result ≡ is_number_to most.now word.now }
{
    is_plain_number(word)
        && (word.len() < most.len() || (word.len() == most.len() && is_not_above(word, most)))
}

/// Whether a word is decimal digits without leading zeros.
fn is_plain_number(word: &[u8]) -> bool
    ensures { result ≡ is_plain_number word.now }
{
    match word {
        [] => false,
        [first] => first.is_ascii_digit(),
        [first, _, ..] => *first != b'0' && are_decimal(word),
    }
}

/// Whether each byte is a decimal digit.
fn are_decimal(word: &[u8]) -> bool
    ensures { result ≡ list_all is_ascii_digit word.now }
{
    word.iter().all(|byte| byte.is_ascii_digit())
}

/// Whether the first of two words of one length is lower than the second in the first byte that differs, if one does.
fn is_not_above(word: &[u8], most: &[u8]) -> bool
    ensures { result ≡ is_not_above word.now most.now }
{
    let mut limit = most;
    for byte in word {
        let [top, ..] = limit else {
            return true;
        };
        if *byte != *top {
            return *byte < *top;
        }
        limit = &limit[1..];
    }
    true
}

/// Whether one of the words is no field, and has an equals sign.
fn has_no_field(words: &[&[u8]]) -> bool
    ensures { result ≡ has_no_field (map (λ word. word.now) words.now) }
{
    for word in words {
        if is_no_field(*word) {
            return true;
        }
    }
    false
}

/// Whether a word with an equals sign is no field.
fn is_no_field(word: &[u8]) -> bool
    ensures { result ≡ is_no_field word.now }
{
    word.contains(&b'=') && field_rank(word) == DATA
}

/// Whether all of these words are fields, and none is a payload.
fn are_fields(words: &[&[u8]]) -> bool
    ensures { result ≡ are_fields (map (λ word. word.now) words.now) }
{
    for word in words {
        if field_rank(*word) >= DATA {
            return false;
        }
    }
    true
}

/// Whether one of these words is a field.
fn has_field(words: &[&[u8]]) -> bool
    ensures { result ≡ has_field (map (λ word. word.now) words.now) }
{
    for word in words {
        if field_rank(*word) < DATA {
            return true;
        }
    }
    false
}

/// Whether the fields and the data of a frame stand in another order.
pub(crate) fn is_disordered(words: &[&[u8]]) -> bool
    ensures { result ≡ is_disordered (map (λ word. word.now) words.now) }
{
    !has_no_field(words) && descend(0, words)
}

/// Whether a word of a frame stands behind one that is to follow it. The first has at least this rank.
pub(crate) fn descend(least: u8, words: &[&[u8]]) -> bool
    ensures { result ≡ descend least (map (λ word. word.now) words.now) }
{
    let mut low = least;
    for word in words {
        let rank = field_rank(*word);
        if rank < low {
            return true;
        }
        low = rank_behind(rank);
    }
    false
}

/// The least rank of a word behind one of this rank.
fn rank_behind(rank: u8) -> u8
    ensures { result ≡ rank_behind rank }
{
    if rank < DATA { rank + 1 } else { DATA }
}

/// Where a word stands among those behind the name of a frame.
fn field_rank(word: &[u8]) -> u8
    ensures { result ≡ field_rank word.now }
{
    if word.starts_with(b"fin=") {
        1
    } else if word.starts_with(b"rsv=") {
        2
    } else if word.starts_with(b"key=") {
        3
    } else if word.starts_with(b"form=") {
        4
    } else {
        DATA
    }
}

/// What is wrong with the first word that is wrong.
fn first_damage(words: &[&[u8]]) -> Option<WordDamage>
    ensures { result ≡ first_damage (map (λ word. word.now) words.now) }
{
    for word in words {
        if let Some(damage) = ranked_damage(field_rank(*word), *word) {
            return Some(damage);
        }
    }
    None
}

/// What is wrong with a word of this rank.
fn ranked_damage(rank: u8, word: &[u8]) -> Option<WordDamage>
    ensures { result ≡ ranked_damage rank word.now }
{
    match rank {
        1 => unless_right(is_right_fin(word), WordDamage::Fin),
        2 => unless_right(is_right_rsv(word), WordDamage::Reserved),
        3 => unless_right(is_right_key(word), WordDamage::Key),
        4 => unless_right(is_right_form(word), WordDamage::Form),
        _ => data_damage(word),
    }
}

/// This, where a word isn't right.
fn unless_right(right: bool, damage: WordDamage) -> Option<WordDamage>
    ensures { result ≡ unless_right right damage }
{
    if right { None } else { Some(damage) }
}

/// Whether a word is a field that tells FIN.
fn is_right_fin(word: &[u8]) -> bool
    ensures { result ≡ is_right_fin word.now }
{
    word == b"fin=0".as_slice() || word == b"fin=1".as_slice()
}

/// Whether a word is a field of the reserved bits.
fn is_right_rsv(word: &[u8]) -> bool
    ensures { result ≡ is_right_rsv word.now }
{
    word == b"rsv=0".as_slice()
        || word == b"rsv=1".as_slice()
        || word == b"rsv=2".as_slice()
        || word == b"rsv=3".as_slice()
        || word == b"rsv=4".as_slice()
        || word == b"rsv=5".as_slice()
        || word == b"rsv=6".as_slice()
        || word == b"rsv=7".as_slice()
}

/// Whether a word, which begins `key=`, has a masking key behind that, or none.
fn is_right_key(word: &[u8]) -> bool
    ensures { result ≡ is_right_key word.now }
{
    word == b"key=-".as_slice() || (word.len() == 12 && are_small_digits(&word[4..]))
}

/// Whether each byte is a lower-case hexadecimal digit.
fn are_small_digits(word: &[u8]) -> bool
    ensures { result ≡ list_all is_small_digit word.now }
{
    word.iter().all(|byte| is_small_digit(*byte))
}

/// Whether a byte is a lower-case hexadecimal digit.
fn is_small_digit(byte: u8) -> bool
    ensures { result ≡ is_small_digit byte }
{
    byte.is_ascii_hexdigit() && !byte.is_ascii_uppercase()
}

/// Whether a word is a field that names a form.
fn is_right_form(word: &[u8]) -> bool
    ensures { result ≡ is_right_form word.now }
{
    word == b"form=short".as_slice()
        || word == b"form=two".as_slice()
        || word == b"form=eight".as_slice()
}

/// What is wrong with a word of data.
fn data_damage(word: &[u8]) -> Option<WordDamage>
    ensures { result ≡ data_damage word.now }
{
    if word == b"-".as_slice() {
        None
    } else if has_capitals(word) {
        Some(WordDamage::Capitals)
    } else if has_no_data(word) {
        Some(WordDamage::Unquoted)
    } else if has_star(word) {
        unless_right(is_repeated_pair(word), WordDamage::Count)
    } else {
        unless_right(are_pairs(word), WordDamage::Pairs)
    }
}

/// Whether a word is hexadecimal digits and stars, of which some are capital.
fn has_capitals(word: &[u8]) -> bool
    ensures { result ≡ has_capitals word.now }
{
    are_digits_or_stars(word) && has_capital(word)
}

/// Whether each byte is a hexadecimal digit, in either case, or a star.
fn are_digits_or_stars(word: &[u8]) -> bool
    ensures { result ≡ list_all is_digit_or_star word.now }
{
    word.iter().all(|byte| is_digit_or_star(*byte))
}

/// Whether a byte is a hexadecimal digit, in either case, or a star.
fn is_digit_or_star(byte: u8) -> bool
    ensures { result ≡ is_digit_or_star byte }
{
    byte.is_ascii_hexdigit() || byte == b'*'
}

/// Whether one of these bytes is a capital letter.
fn has_capital(word: &[u8]) -> bool
    ensures { result ≡ list_any is_ascii_uppercase word.now }
{
    word.iter().any(|byte| byte.is_ascii_uppercase())
}

/// Whether one of these bytes is in no data without quotes.
fn has_no_data(word: &[u8]) -> bool
    ensures { result ≡ list_any is_no_data word.now }
{
    word.iter().any(|byte| is_no_data(*byte))
}

/// Whether no data without quotes has this byte.
fn is_no_data(byte: u8) -> bool
    ensures { result ≡ is_no_data byte }
{
    !(byte.is_ascii_hexdigit() || byte == b'*' || byte == b'-')
}

/// Whether one of these bytes is a star.
fn has_star(word: &[u8]) -> bool
    ensures { result ≡ has_star word.now }
{
    word.iter().any(|byte| *byte == b'*')
}

/// Whether a word is a pair of digits, a star and a count.
fn is_repeated_pair(word: &[u8]) -> bool
    ensures { result ≡ is_repeated_pair word.now }
{
    match word {
        [a, b, star, count @ ..] => {
            a.is_ascii_hexdigit()
                && b.is_ascii_hexdigit()
                && *star == b'*'
                && count != b"0".as_slice()
                && is_number_to(b"16777216", count)
        }
        _ => false,
    }
}

/// Whether a word is hexadecimal digits, two and two.
fn are_pairs(word: &[u8]) -> bool
    ensures { result ≡ are_pairs word.now }
{
    are_hexadecimal(word) && word.len() % 2 == 0
}

/// Whether each byte is a hexadecimal digit, in either case.
fn are_hexadecimal(word: &[u8]) -> bool
    ensures { result ≡ list_all is_ascii_hexdigit word.now }
{
    word.iter().all(|byte| byte.is_ascii_hexdigit())
}

/// What is wrong with words of which each is right.
fn whole_damage(words: &[&[u8]]) -> Option<WordDamage>
    ensures { result ≡ whole_damage (map (λ word. word.now) words.now) }
{
    if has_two_payloads(words) {
        Some(WordDamage::Pairs)
    } else if !has_rank(4, words) {
        None
    } else if has_rank(3, words) {
        Some(WordDamage::FormLength)
    } else {
        Some(WordDamage::Form)
    }
}

/// Whether something stands behind a word of data.
fn has_two_payloads(words: &[&[u8]]) -> bool
    ensures { result ≡ has_two_payloads (map (λ word. word.now) words.now) }
{
    let mut behind = false;
    for word in words {
        if behind {
            return true;
        }
        behind = field_rank(*word) == DATA;
    }
    false
}

/// Whether one of the words has this rank.
fn has_rank(rank: u8, words: &[&[u8]]) -> bool
    ensures { result ≡ has_rank rank (map (λ word. word.now) words.now) }
{
    for word in words {
        if field_rank(*word) == rank {
            return true;
        }
    }
    false
}
