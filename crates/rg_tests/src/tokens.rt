//! Sources with their tokens, or their faults (docs/language.md, "Tokens").

use rg_base::{SOURCE_BYTES, Stop};
use rg_lex::{Tokens, tokens};
use std::alloc::{AllocError, Global};

// A source; each token's line, place and kind, and the line of the end; or the fault.
static SOURCES: [(&[u8], &str); 42] = [
    (
        b"class tmp mut",
        "1:0-5 Word(Class); 1:6-9 Word(Tmp); 1:10-13 Word(Mut); end 1",
    ),
    (
        b"paused imm iso",
        "1:0-6 Word(Paused); 1:7-10 Word(Imm); 1:11-14 Word(Iso); end 1",
    ),
    (
        b"int bool def",
        "1:0-3 Word(Int); 1:4-8 Word(Bool); 1:9-12 Word(Def); end 1",
    ),
    (
        b"main arena count",
        "1:0-4 Word(Main); 1:5-10 Word(Arena); 1:11-16 Word(Count); end 1",
    ),
    (
        b"trace let if",
        "1:0-5 Word(Trace); 1:6-9 Word(Let); 1:10-12 Word(If); end 1",
    ),
    (
        b"else while return",
        "1:0-4 Word(Else); 1:5-10 Word(While); 1:11-17 Word(Return); end 1",
    ),
    (
        b"print read more",
        "1:0-5 Word(Print); 1:6-10 Word(Read); 1:11-15 Word(More); end 1",
    ),
    (
        b"call new enter",
        "1:0-4 Word(Call); 1:5-8 Word(New); 1:9-14 Word(Enter); end 1",
    ),
    (
        b"as in is",
        "1:0-2 Word(As); 1:3-5 Word(In); 1:6-8 Word(Is); end 1",
    ),
    (
        b"freeze merge swap",
        "1:0-6 Word(Freeze); 1:7-12 Word(Merge); 1:13-17 Word(Swap); end 1",
    ),
    (
        b"collect nil true",
        "1:0-7 Word(Collect); 1:8-11 Word(Nil); 1:12-16 Word(True); end 1",
    ),
    (
        b"false and or",
        "1:0-5 Word(False); 1:6-9 Word(And); 1:10-12 Word(Or); end 1",
    ),
    (
        b"not self giving",
        "1:0-3 Word(Not); 1:4-8 Word(SelfWord); 1:9-15 Word(Giving); end 1",
    ),
    (
        b"size cown when",
        "1:0-4 Word(Size); 1:5-9 Word(Cown); 1:10-14 Word(When); end 1",
    ),
    (
        b"{ } (",
        "1:0-1 Mark(OpenBrace); 1:2-3 Mark(CloseBrace); 1:4-5 Mark(OpenParen); end 1",
    ),
    (
        b") : ;",
        "1:0-1 Mark(CloseParen); 1:2-3 Mark(Colon); 1:4-5 Mark(Semicolon); end 1",
    ),
    (
        b", . =",
        "1:0-1 Mark(Comma); 1:2-3 Mark(Dot); 1:4-5 Mark(Assign); end 1",
    ),
    (
        b"== != <",
        "1:0-2 Mark(Equal); 1:3-5 Mark(NotEqual); 1:6-7 Mark(Less); end 1",
    ),
    (
        b"<= > >=",
        "1:0-2 Mark(AtMost); 1:3-4 Mark(Greater); 1:5-7 Mark(AtLeast); end 1",
    ),
    (
        b"+ - *",
        "1:0-1 Mark(Plus); 1:2-3 Mark(Minus); 1:4-5 Mark(Star); end 1",
    ),
    (b"/ %", "1:0-1 Mark(Slash); 1:2-3 Mark(Percent); end 1"),
    (
        b"[ ]",
        "1:0-1 Mark(OpenBracket); 1:2-3 Mark(CloseBracket); end 1",
    ),
    (b"", "end 1"),
    (b"x7 _ If", "1:0-2 Name; 1:3-4 Name; 1:5-7 Name; end 1"),
    (b"classes 007", "1:0-7 Name; 1:8-11 Number(7); end 1"),
    (
        b"9223372036854775807",
        "1:0-19 Number(9223372036854775807); end 1",
    ),
    (
        b"aaaaaaaaaaaaaaaaaaaaaaaaaaaaaaaaaaaaaaaaaaaaaaaaaaaaaaaaaaaaaaaa",
        "1:0-64 Name; end 1",
    ),
    (
        b"a<==!=",
        "1:0-1 Name; 1:1-3 Mark(AtMost); 1:3-4 Mark(Assign); 1:4-6 Mark(NotEqual); end 1",
    ),
    (
        b"a[0]",
        "1:0-1 Name; 1:1-2 Mark(OpenBracket); 1:2-3 Number(0); 1:3-4 Mark(CloseBracket); end 1",
    ),
    (b"//b\n\r/c// x", "2:5-6 Mark(Slash); 2:6-7 Name; end 2"),
    (b"//\n0// \xc8\0", "2:3-4 Number(0); end 2"),
    (b"$", "Byte at 1"),
    (b"x\0", "Byte at 1"),
    (b"// \xc8\n\xc8", "Byte at 2"),
    (b"\n\n! =", "Byte at 3"),
    (b"\rx\t\n&\n1x", "Byte at 2"),
    (b"1x", "Number at 1"),
    (b"1_", "Number at 1"),
    (b"9223372036854775808", "Number at 1"),
    (b"//\n 09223372036854775808 $", "Number at 2"),
    (
        b"aaaaaaaaaaaaaaaaaaaaaaaaaaaaaaaaaaaaaaaaaaaaaaaaaaaaaaaaaaaaaaaaa",
        "Name at 1",
    ),
    (
        b"x\n1 _________________________________________________________________",
        "Name at 2",
    ),
];

// Appends the tokens of a source and the line of its end.
fn show(text: &mut String, found: &Tokens) -> Result<(), AllocError> {
    for i in 0..found.len() {
        let token = found.get(i);
        write!(
            text,
            "{}:{}-{} {:?}; ",
            token.line, token.from, token.to, token.kind
        )?;
    }
    write!(text, "end {}", found.end_line())
}

// Appends the fault of a source.
fn show_fault(text: &mut String, stop: Stop) -> Result<(), AllocError> {
    match stop {
        Stop::Fault(fault) => write!(text, "{:?} at {}", fault.code, fault.line),
        Stop::Memory => Ok(()),
    }
}

// Whether a source has these tokens, or that fault.
fn is_shown(alloc: Global, source: &[u8], want: &str) -> bool {
    if source.len() > SOURCE_BYTES {
        return false;
    }
    let mut text = String::new(alloc);
    let is_whole = match tokens(alloc, source) {
        Ok(found) => show(&mut text, &found).is_ok(),
        Err(stop) => show_fault(&mut text, stop).is_ok(),
    };
    is_whole && text.as_str() == want
}

#[test]
fn sources_give_their_tokens_or_their_fault(rt: HostRuntime) {
    for (source, want) in &SOURCES {
        assert!(rt; is_shown(rt.alloc(), source, want), "{want}");
    }
}
