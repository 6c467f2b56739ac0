//! What is wrong with a line that is no step, where that is known to be typed often.

ghost use Rattle.std.specs.Prelude.{◌≡◌, ◌==◌, ◌<◌, ℕ, IfOk, IfSome, length, map, position};
ghost use Rattle.std.specs.List.{list_all, list_any};
ghost use Rattle.wst_commands.specs.StepDamages.{CutsAtMark, CutsAtQuote, behind_damage, behind_lines, closing_quote};
ghost use Rattle.wst_commands.specs.StepDamages.{damage_words, escapes, found_in_words, has_tab, is_blank_word};
ghost use Rattle.wst_commands.specs.StepDamages.{is_comment, is_glued, is_misspaced, layout_damage, line_damage};
ghost use Rattle.wst_commands.specs.StepDamages.{order_damage, plain_damage, quoted_damage, step_damage};
ghost use Rattle.wst_commands.specs.StepDamages.{text_damage_words, text_line_damage, texts_damage, words_damage};

use crate::step_texts::{TextDamage, text_damage};
use crate::step_words::{WordDamage, descend, is_disordered, named_damage};
use memchr::memchr;
use std::alloc::{AllocError, Global};
use ws_formats::words_of;

/// The data of a frame stands behind its fields.
const DATA: u8 = 5;

/// What is wrong with the damaged line of a script.
#[derive(Clone, Copy, Debug, PartialEq, Eq)]
pub enum StepDamage {
    /// It is the last line, and has no LF.
    Unended,
    /// It ends in CR.
    EndsInCr,
    /// It has quotes, but not two that no backslash escapes.
    Quotes,
    /// More stands behind its text.
    AfterText,
    /// A comment stands behind its step.
    Comment,
    /// It has a space too many or too few, or a tab.
    Spaces,
    /// It has something behind `wait`.
    Wait,
    /// Its chop is none, or stands behind a step.
    Chop,
    /// Its fields stand in another order.
    Order,
    /// Its text stands for no bytes.
    InText(TextDamage),
    /// One of its words is wrong, or they don't go together.
    InWords(WordDamage),
    /// It is none of these.
    Other,
}

impl StepDamage {
    /// What is told of the line. The second line says what to type, where that is known.
    pub(crate) fn words(self) -> &'static str
        ensures { result.now ≡ damage_words self }
    {
        match self {
            StepDamage::Unended => "not a step\n  end the last line with a line feed too",
            StepDamage::EndsInCr =>
                "not a step\n  end lines with LF alone, not with CR LF: tr -d '\\r'",
            StepDamage::Quotes =>
                "not a step\n  a text has a quote at each end, and \\\" between: text \"say \\\"hi\\\"\"",
            StepDamage::AfterText => "not a step\n  the second quote ends the line: text \"hi\"",
            StepDamage::Comment =>
                "not a step\n  a comment has a line of its own, from its first byte on",
            StepDamage::Spaces =>
                "not a step\n  one space between words and before a quote, none at the ends, no tab",
            StepDamage::Wait => "not a step\n  wait stands alone, --timeout says how long",
            StepDamage::Chop =>
                "not a step\n  chop whole, chop frames or chop octets N, once, before all steps",
            StepDamage::Order => "not a step\n  the order is KIND fin= rsv= key= form= DATA",
            StepDamage::InText(damage) => text_words(damage),
            StepDamage::InWords(damage) => damage.words(),
            StepDamage::Other => "not a step",
        }
    }
}

/// What is told of a text.
fn text_words(damage: TextDamage) -> &'static str
    ensures { result.now ≡ text_damage_words damage }
{
    match damage {
        TextDamage::Unprintable =>
            "not a step\n  a text is UTF-8 without control characters, other bytes are hex: text ff",
        TextDamage::Escape =>
            "not a step\n  an escape is \\\" \\\\ \\/ \\b \\f \\n \\r \\t or \\uXXXX: text \"C:\\\\temp\"",
        TextDamage::Half =>
            "not a step\n  half of a pair has no other half: text \"\\ud83d\\ude00\"",
    }
}

/// What is wrong with the line of this number, counted from 1, of a script that is damaged there.
pub fn step_damage(alloc: Global, text: &[u8], number: u64) -> Result<StepDamage, AllocError>
    ensures { IfOk result (λ damage. damage ≡ step_damage text.now number) }
{
    let rest = behind_lines(text, number.saturating_sub(1));
    match cut_at(rest, b'\n') {
        Some((line, _)) => line_damage(alloc, line),
        None => Ok(StepDamage::Unended),
    }
}

/// What stands behind so many lines.
pub(crate) fn behind_lines(text: &[u8], count: u64) -> &[u8]
    ensures { result.now ≡ behind_lines count text.now }
{
    let mut rest = text;
    for _ in 0..count {
        match cut_at(rest, b'\n') {
            Some((_, behind)) => rest = behind,
            None => rest = b"",
        }
    }
    rest
}

/// What is wrong with a line that has an LF.
fn line_damage(alloc: Global, line: &[u8]) -> Result<StepDamage, AllocError>
    ensures { IfOk result (λ damage. damage ≡ line_damage line.now) }
{
    if line.ends_with(b"\r") {
        return Ok(StepDamage::EndsInCr);
    }
    match cut_at(line, b'"') {
        Some((front, rest)) => quoted_damage(alloc, front, rest),
        None => {
            let words = words_of(alloc, line)?;
            Ok(plain_damage(words.as_slice()))
        }
    }
}

/// What is wrong with the words of a line that has no quote.
fn plain_damage(words: &[&[u8]]) -> StepDamage
    ensures { result ≡ plain_damage (map (λ word. word.now) words.now) }
{
    match layout_damage(words) {
        Some(damage) => damage,
        None => words_damage(words),
    }
}

/// How the words of a line stand, where they don't stand as they should.
fn layout_damage(words: &[&[u8]]) -> Option<StepDamage>
    ensures { result ≡ layout_damage (map (λ word. word.now) words.now) }
{
    if has_comment(words) {
        Some(StepDamage::Comment)
    } else if has_misspaced(words) {
        Some(StepDamage::Spaces)
    } else {
        order_damage(words)
    }
}

/// Whether a comment begins with one of the words.
fn has_comment(words: &[&[u8]]) -> bool
    ensures { result ≡ list_any is_comment (map (λ word. word.now) words.now) }
{
    for word in words {
        if word.starts_with(b"#") {
            return true;
        }
    }
    false
}

/// Whether a space stands beside one of the words or in its place, or a tab in it.
fn has_misspaced(words: &[&[u8]]) -> bool
    ensures { result ≡ list_any is_misspaced (map (λ word. word.now) words.now) }
{
    for word in words {
        if is_misspaced(*word) {
            return true;
        }
    }
    false
}

/// Whether a word is empty, or has a tab.
fn is_misspaced(word: &[u8]) -> bool
    ensures { result ≡ is_misspaced word.now }
{
    word == b"".as_slice() || has_tab(word)
}

/// Whether one of these bytes is a tab.
fn has_tab(word: &[u8]) -> bool
    ensures { result ≡ has_tab word.now }
{
    word.iter().any(|byte| *byte == b'\t')
}

/// What is wrong with the first word of a line, or with the order of the others.
fn order_damage(words: &[&[u8]]) -> Option<StepDamage>
    ensures { result ≡ order_damage (map (λ word. word.now) words.now) }
{
    match words {
        [name, ..] if *name == b"wait".as_slice() => Some(StepDamage::Wait),
        [name, ..] if *name == b"chop".as_slice() => Some(StepDamage::Chop),
        [_, fields @ ..] if is_disordered(fields) => Some(StepDamage::Order),
        _ => None,
    }
}

/// What is wrong with the words of a line, which stand as they should.
fn words_damage(words: &[&[u8]]) -> StepDamage
    ensures { result ≡ words_damage (map (λ word. word.now) words.now) }
{
    match words {
        [name, fields @ ..] => found_in_words(named_damage(*name, fields)),
        [] => StepDamage::Other,
    }
}

/// What was found in the words, if anything was.
fn found_in_words(found: Option<WordDamage>) -> StepDamage
    ensures { result ≡ found_in_words found }
{
    match found {
        Some(damage) => StepDamage::InWords(damage),
        None => StepDamage::Other,
    }
}

/// What is wrong with a line, by what stands before its first quote and behind it.
fn quoted_damage(alloc: Global, front: &[u8], rest: &[u8]) -> Result<StepDamage, AllocError>
    ensures { IfOk result (λ damage. damage ≡ quoted_damage front.now rest.now) }
{
    let Some((text, behind)) = cut_at_quote(rest) else {
        return Ok(StepDamage::Quotes);
    };
    if behind.contains(&b'"') {
        return Ok(StepDamage::Quotes);
    }
    if behind.is_empty() {
        return text_line_damage(alloc, front, text);
    }
    let words = words_of(alloc, behind)?;
    Ok(behind_damage(words.as_slice()))
}

/// What is wrong with a line that ends with a text, of which this stands before the text.
fn text_line_damage(alloc: Global, front: &[u8], text: &[u8]) -> Result<StepDamage, AllocError>
    ensures { IfOk result (λ damage. damage ≡ text_line_damage front.now text.now) }
{
    if is_glued(front) {
        return Ok(StepDamage::Spaces);
    }
    let mut line = front.to_vec(alloc)?;
    line.push(b'-')?;
    let words = words_of(alloc, line.as_slice())?;
    Ok(texts_damage(text, words.as_slice()))
}

/// Whether these bytes, in front of a quote, end without a space.
fn is_glued(front: &[u8]) -> bool
    ensures { result ≡ is_glued front.now }
{
    !front.is_empty() && !front.ends_with(b" ")
}

/// What is wrong with a line that ends with a text, by its words with a dash in the place of the text.
fn texts_damage(text: &[u8], words: &[&[u8]]) -> StepDamage
    ensures { result ≡ texts_damage text.now (map (λ word. word.now) words.now) }
{
    if let Some(damage) = layout_damage(words) {
        return damage;
    }
    match text_damage(text) {
        Some(damage) => StepDamage::InText(damage),
        None => words_damage(words),
    }
}

/// What is wrong with the words behind a text.
fn behind_damage(words: &[&[u8]]) -> StepDamage
    ensures { result ≡ behind_damage (map (λ word. word.now) words.now) }
{
    if has_comment(words) {
        StepDamage::Comment
    } else if are_blank(words) {
        StepDamage::Spaces
    } else if descend(DATA, words) {
        StepDamage::Order
    } else {
        StepDamage::AfterText
    }
}

/// Whether each of the words is nothing but tabs.
fn are_blank(words: &[&[u8]]) -> bool
    ensures { result ≡ list_all is_blank_word (map (λ word. word.now) words.now) }
{
    for word in words {
        if !is_blank_word(*word) {
            return false;
        }
    }
    true
}

/// Whether a word is nothing but tabs.
fn is_blank_word(word: &[u8]) -> bool
    ensures { result ≡ is_blank_word word.now }
{
    word.iter().all(|byte| *byte == b'\t')
}

/// What stands before the first of these bytes, and behind it. `None` where there is none.
pub(crate) fn cut_at(bytes: &[u8], mark: u8) -> Option<(&[u8], &[u8])>
    ensures { CutsAtMark mark bytes.now result }
{
    let at = first_at(bytes, mark)?;
    Some((&bytes[..at], &bytes[at + 1..]))
}

/// What stands before the quote that ends a text, and behind it. `None` where none does.
fn cut_at_quote(bytes: &[u8]) -> Option<(&[u8], &[u8])>
    ensures { CutsAtQuote bytes.now result }
{
    let at = closing_quote(bytes)?;
    Some((&bytes[..at], &bytes[at + 1..]))
}

/// Where the first quote stands that no backslash escapes, if there is one.
fn closing_quote(bytes: &[u8]) -> Option<usize>
    ensures quote { result ≡ closing_quote bytes.now }
    ensures inside { IfSome result (λ at. at < length bytes.now) }
{
    let mut escaped = false;
    let mut at = 0;
    for byte in bytes {
        if !escaped && *byte == b'"' {
            return Some(at);
        }
        escaped = escapes(escaped, *byte);
        at += 1;
    }
    None
}

/// Whether a byte, which a backslash escapes or none, escapes the next one.
fn escapes(escaped: bool, byte: u8) -> bool
    ensures { result ≡ escapes escaped byte }
{
    !escaped && byte == b'\\'
}

/// Where the first of these bytes stands, if there is one.
fn first_at(bytes: &[u8], mark: u8) -> Option<usize>
    ensures { result ≡ position (λ byte. byte == mark) bytes.now }
{
    memchr(mark, bytes)
}
