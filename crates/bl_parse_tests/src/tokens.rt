//! Tokens with their kinds, places and lines.

use bl_lex::{lex, sign};
use bl_tree::Place;
use bl_tree::token::{Keyword, TokenKind};
use std::test::Fail;

#[test]
fn a_program_has_its_tokens(rt: HostRuntime) -> Result<(), Fail> {
    let tokens = lex(rt.alloc(), b"x = 0xfF\n// y\nwhile a<<=-1 /* \n */ prev_")
        .ok()
        .ok_or("refused")?;
    let expected = [
        (TokenKind::Name, 0, 1, 0),
        (TokenKind::Sign(sign::ASSIGN), 2, 3, 0),
        (TokenKind::Number(255), 4, 8, 0),
        (TokenKind::Word(Keyword::While), 14, 19, 2),
        (TokenKind::Name, 20, 21, 2),
        (TokenKind::Sign(sign::SHIFT_LEFT), 21, 23, 2),
        (TokenKind::Sign(sign::ASSIGN), 23, 24, 2),
        (TokenKind::Sign(sign::MINUS), 24, 25, 2),
        (TokenKind::Number(1), 25, 26, 2),
        (TokenKind::Name, 35, 40, 3),
    ];
    assert_eq!(rt; tokens.len(), expected.len());
    for (token, (kind, start, end, line)) in tokens.iter().zip(expected.iter()) {
        assert_eq!(rt; token.kind, *kind);
        assert_eq!(rt;
            token.place,
            Place {
                start: *start,
                end: *end
            }
        );
        assert_eq!(rt; token.line, *line);
    }
    Ok(())
}

#[test]
fn great_numbers_are_kept_as_one(rt: HostRuntime) -> Result<(), Fail> {
    let text =
        b"18446744073709551615 18446744073709551616 99999999999999999999999999999999999999999999";
    let tokens = lex(rt.alloc(), text).ok().ok_or("refused")?;
    assert_eq!(rt; tokens.len(), 3);
    assert_eq!(rt;
        tokens[0].kind,
        TokenKind::Number(18_446_744_073_709_551_615)
    );
    assert_eq!(rt;
        tokens[1].kind,
        TokenKind::Number(18_446_744_073_709_551_616)
    );
    assert_eq!(rt;
        tokens[2].kind,
        TokenKind::Number(18_446_744_073_709_551_616)
    );
    Ok(())
}
