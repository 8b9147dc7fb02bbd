//! The reserved words: each length has a function of its own (docs/language.md, "Tokens").

ghost use Rattle.std.specs.Prelude.{◌≡◌, length, bytes_eq};
ghost use Rattle.rg_base.specs.Words.{keyword_of, beside};
ghost use Rattle.rg_lex.specs.Inner.OfLength.{keywords_of_length};

use rg_base::Keyword;

/// The reserved word that a text is.
pub(crate) fn keyword(text: &[u8]) -> Option<Keyword>
    ensures { result ≡ keyword_of text.now }
{
    match text.len() {
        2 => two_letters(text),
        3 => three_letters(text),
        4 => four_letters(text),
        5 => five_letters(text),
        6 => six_letters(text),
        7 => seven_letters(text),
        _ => None,
    }
}

/// Whether a text is this word.
fn is(text: &[u8], word: &[u8]) -> bool
    ensures { result ≡ bytes_eq word.now text.now }
{
    word == text
}

fn two_letters(text: &[u8]) -> Option<Keyword>
    requires { length text.now ≡ 2 }
    ensures { result ≡ beside (keywords_of_length 2) text.now }
{
    if is(text, b"if") {
        return Some(Keyword::If);
    }
    if is(text, b"as") {
        return Some(Keyword::As);
    }
    if is(text, b"in") {
        return Some(Keyword::In);
    }
    if is(text, b"is") {
        return Some(Keyword::Is);
    }
    if is(text, b"or") {
        return Some(Keyword::Or);
    }
    None
}

fn three_letters(text: &[u8]) -> Option<Keyword>
    requires { length text.now ≡ 3 }
    ensures { result ≡ beside (keywords_of_length 3) text.now }
{
    if is(text, b"tmp") {
        return Some(Keyword::Tmp);
    }
    if is(text, b"mut") {
        return Some(Keyword::Mut);
    }
    if is(text, b"imm") {
        return Some(Keyword::Imm);
    }
    if is(text, b"iso") {
        return Some(Keyword::Iso);
    }
    if is(text, b"int") {
        return Some(Keyword::Int);
    }
    if is(text, b"def") {
        return Some(Keyword::Def);
    }
    if is(text, b"let") {
        return Some(Keyword::Let);
    }
    if is(text, b"new") {
        return Some(Keyword::New);
    }
    if is(text, b"nil") {
        return Some(Keyword::Nil);
    }
    if is(text, b"and") {
        return Some(Keyword::And);
    }
    if is(text, b"not") {
        return Some(Keyword::Not);
    }
    None
}

fn four_letters(text: &[u8]) -> Option<Keyword>
    requires { length text.now ≡ 4 }
    ensures { result ≡ beside (keywords_of_length 4) text.now }
{
    if is(text, b"bool") {
        return Some(Keyword::Bool);
    }
    if is(text, b"main") {
        return Some(Keyword::Main);
    }
    if is(text, b"else") {
        return Some(Keyword::Else);
    }
    if is(text, b"read") {
        return Some(Keyword::Read);
    }
    if is(text, b"more") {
        return Some(Keyword::More);
    }
    if is(text, b"call") {
        return Some(Keyword::Call);
    }
    if is(text, b"swap") {
        return Some(Keyword::Swap);
    }
    if is(text, b"true") {
        return Some(Keyword::True);
    }
    if is(text, b"self") {
        return Some(Keyword::SelfWord);
    }
    if is(text, b"size") {
        return Some(Keyword::Size);
    }
    if is(text, b"cown") {
        return Some(Keyword::Cown);
    }
    if is(text, b"when") {
        return Some(Keyword::When);
    }
    None
}

fn five_letters(text: &[u8]) -> Option<Keyword>
    requires { length text.now ≡ 5 }
    ensures { result ≡ beside (keywords_of_length 5) text.now }
{
    if is(text, b"class") {
        return Some(Keyword::Class);
    }
    if is(text, b"arena") {
        return Some(Keyword::Arena);
    }
    if is(text, b"count") {
        return Some(Keyword::Count);
    }
    if is(text, b"trace") {
        return Some(Keyword::Trace);
    }
    if is(text, b"while") {
        return Some(Keyword::While);
    }
    if is(text, b"print") {
        return Some(Keyword::Print);
    }
    if is(text, b"enter") {
        return Some(Keyword::Enter);
    }
    if is(text, b"merge") {
        return Some(Keyword::Merge);
    }
    if is(text, b"false") {
        return Some(Keyword::False);
    }
    None
}

fn six_letters(text: &[u8]) -> Option<Keyword>
    requires { length text.now ≡ 6 }
    ensures { result ≡ beside (keywords_of_length 6) text.now }
{
    if is(text, b"paused") {
        return Some(Keyword::Paused);
    }
    if is(text, b"return") {
        return Some(Keyword::Return);
    }
    if is(text, b"freeze") {
        return Some(Keyword::Freeze);
    }
    if is(text, b"giving") {
        return Some(Keyword::Giving);
    }
    None
}

fn seven_letters(text: &[u8]) -> Option<Keyword>
    requires { length text.now ≡ 7 }
    ensures { result ≡ beside (keywords_of_length 7) text.now }
{
    if is(text, b"collect") {
        return Some(Keyword::Collect);
    }
    None
}
