//! Tests of cursors: over the tokens of a text, and at a character that begins no token.

use crate::checking::check_equal;
use ag_expr::{Cursor, GrammarToken, Punctuation, unescaped};
use std::test::Fail;

/// Checks the tokens of a text and their offsets in bytes, and that `peek` returns a text as it is
/// written, without replacing its escapes.
#[test]
fn tokens_one_by_one(rt: HostRuntime) -> Result<(), Fail> {
    let mut cursor = Cursor::new("\tlet a = \"b\\n\" ;");
    for (token, at) in [
        (GrammarToken::Name("let"), 1),
        (GrammarToken::Name("a"), 5),
        (GrammarToken::Punctuation(Punctuation::Equal), 7),
        (GrammarToken::Text("b\\n"), 9),
        (GrammarToken::Punctuation(Punctuation::Semicolon), 15),
    ] {
        check_equal(&rt, "token", cursor.peek(), Some(token));
        check_equal(&rt, "offset", cursor.offset(), at);
        assert!(rt; !cursor.is_at_end());
        cursor.bump();
    }
    check_equal(&rt, "token at the end", cursor.peek(), None);
    check_equal(&rt, "offset of the end", cursor.offset(), 16);
    assert!(rt; cursor.is_at_end());
    check_equal(
        &rt,
        "unescaped text",
        unescaped(rt.alloc(), "b\\n")?.as_str(),
        "b\n",
    );
    Ok(())
}

/// Checks that `bump` does not move a cursor where no token begins.
#[test]
fn bump_where_no_token_begins(rt: HostRuntime) -> Result<(), Fail> {
    let mut cursor = Cursor::new("a @ b");
    cursor.bump();
    cursor.bump();
    check_equal(&rt, "token", cursor.peek(), None);
    check_equal(&rt, "offset", cursor.offset(), 2);
    assert!(rt; !cursor.is_at_end());
    Ok(())
}
