//! Words that are tokens, and words that are none.

use qk_base::Memory;
use qk_report::{Token, TokenFault};
use std::alloc::{AllocError, Global};

// Each is the text of one token.
const TOKENS: &str = "q1:0:0:0:0:1:-
q1:0:0:0:0:100000:-
q1:0:0:0:0:100000:2.2
q1:0:0:0:0:100000:1
q1:1:0:0:0:100000:-
q1:999:18446744073709551615:100999999:1000:1000000:18446744073709551615
q1:10:100:1000:10:10:0.10.100
q1:0:9:99:9:9:0.0.0.0";

// Each breaks one rule of tokens.
const OTHERS: &str = "q1:0:0
q1
q1:
q1:0:0:0:0:100000
q1:0:0:0:0:100000:
q2:0:0:0:0:100000:-
Q1:0:0:0:0:100000:-
q1 0:0:0:0:100000:-
 q1:0:0:0:0:100000:-
q1:0:0:0:0:100000:- 
q1:00:0:0:0:100000:-
q1:0:00:0:0:100000:-
q1:0:0:01:0:100000:-
q1:0:0:0:010:100000:-
q1:0:0:0:0:0100000:-
q1:0:0:0:0:100000:02.2
q1:0:0:0:0:100000:2.02
q1:0:0:0:0:100000:00
q1:1000:0:0:0:100000:-
q1:0:18446744073709551616:0:0:100000:-
q1:0:99999999999999999999:0:0:100000:-
q1:0:100000000000000000000000:0:0:100000:-
q1:0:0:101000000:0:100000:-
q1:0:0:0:1001:100000:-
q1:0:0:0:0:0:-
q1:0:0:0:0:1000001:-
q1:0:0:0:0:100000:18446744073709551616
q1:0:0:0:0:100000:1.18446744073709551616
q1::0:0:0:100000:-
q1:0::0:0:100000:-
q1:-1:0:0:0:100000:-
q1:+1:0:0:0:100000:-
q1:0:0:0:0:100000:--
q1:0:0:0:0:100000:-.1
q1:0:0:0:0:100000:1.
q1:0:0:0:0:100000:.1
q1:0:0:0:0:100000:.
q1:0:0:0:0:100000:1..2
q1:0:0:0:0:100000:1.-
q1:0:0:0:0:100000:1,2
q1:0:0:0:0:100000:1:2
q1:0:0:0:0:100000:x
q1:a:0:0:0:100000:-";

// Whether the word is read as a token, which prints as the word.
fn is_token(alloc: Global, word: &str) -> Result<bool, Memory> {
    match Token::parse(alloc, word) {
        Ok(token) => {
            let text = token.print(alloc)?;
            Ok(text.as_slice() == word.as_bytes())
        }
        Err(TokenFault::BadToken) => Ok(false),
        Err(TokenFault::Memory) => Err(Memory),
    }
}

// A token with so many numbers in its path, and one more.
fn with_path(alloc: Global, more: usize) -> Result<String, AllocError> {
    let mut word = String::from_str(alloc, "q1:0:0:0:0:1:0")?;
    for _ in 0..more {
        word.push_str(".0")?;
    }
    Ok(word)
}

#[test]
fn words_of_tokens(rt: HostRuntime) -> Result<(), Memory> {
    let alloc = rt.alloc();
    for word in TOKENS.lines() {
        assert!(rt; is_token(alloc, word)?, "{word}");
    }
    for word in OTHERS.lines() {
        assert!(rt; !is_token(alloc, word)?, "{word}");
    }
    assert!(rt; !is_token(alloc, "")?);
    Ok(())
}

#[test]
fn long_paths(rt: HostRuntime) -> Result<(), Memory> {
    let alloc = rt.alloc();
    assert!(rt; is_token(alloc, with_path(alloc, 1023)?.as_str())?);
    assert!(rt; !is_token(alloc, with_path(alloc, 1024)?.as_str())?);
    Ok(())
}
