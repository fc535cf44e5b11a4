//! The tokens of a Select expression.
#![tactic(auto)]

mod bytes;
mod fault;
mod front;
mod laws;
mod lexer;
mod token;

pub use fault::LexFault;
pub use laws::one_cutting;
pub use lexer::lex;
pub use token::{Kind, Token, Tokens};
