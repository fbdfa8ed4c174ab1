//! Tokens, which the program never asks for, and the longest text, which is longer than a line of a script.
use escrow_sql::{MAX_TEXT, ParseFault, lex, parse};
use std::test::Fail;

/// A text with a token of each kind: with letters of both cases, after a comment, and without
/// blanks between tokens.
const TEXT: &str = "sEt a$1<=-5--x\n'b''c'1.50";

/// Its tokens, with the places of their bytes.
const TOKENS: &str = "[Token { kind: Word(Set), start: 0, end: 3 }, \
    Token { kind: Name(\"A$1\"), start: 4, end: 7 }, \
    Token { kind: Symbol(AtMost), start: 7, end: 9 }, \
    Token { kind: Symbol(Minus), start: 9, end: 10 }, \
    Token { kind: Number(Amount { value: 5 }), start: 10, end: 11 }, \
    Token { kind: Text(Text { text: \"b'c\" }), start: 15, end: 21 }, \
    Token { kind: Decimal(Decimal { millionths: 1500000 }), start: 21, end: 25 }]";

/// Each token says what it is, and where its bytes are.
#[test]
fn gives_tokens(rt: HostRuntime) -> Result<(), Fail> {
    let tokens = lex(rt.alloc(), TEXT)?;
    let tokens = tokens.as_slice();
    let shown = format!(in rt.alloc(); "{tokens:?}")?;
    assert_eq!(rt; shown.as_str(), TOKENS);
    Ok(())
}

/// A text of 65,536 bytes is read. In a longer one, the fault comes after this many bytes.
#[test]
fn reads_the_longest_text(rt: HostRuntime) -> Result<(), Fail> {
    let alloc = rt.alloc();
    let mut text = String::from_str(alloc, "COMMIT")?;
    for _ in text.len()..MAX_TEXT {
        text.push(' ')?;
    }
    parse(alloc, text.as_str())?;
    text.push(' ')?;
    let fault = parse(alloc, text.as_str()).err();
    assert_eq!(rt; fault, Some(ParseFault::Syntax { column: 65_537 }));
    Ok(())
}
