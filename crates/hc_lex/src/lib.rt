//! The tokens of a source: words, numbers, texts and marks with their places, blanks and comments left out.
//! `specs/Front.antt` says what stands at the front of a text, and `specs/Lexes.antt` chains it.
#![tactic(auto)]

mod cut;
mod front;
mod laws;
mod lexer;
mod mark;
mod number;
mod place;
mod token;

pub use laws::{never_both, one_first_breach, one_reading, tokens_are_plain, tokens_or_breach};
pub use lexer::lex;
pub use mark::Mark;
pub use token::{Placed, Token, Tokens};
