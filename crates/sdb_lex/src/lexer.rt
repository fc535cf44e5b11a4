//! Cutting a whole text into its tokens.

ghost use Rattle.std.specs.Prelude.{◌≡◌, ◌≢◌, Err, IfOk, length};
ghost use Rattle.sdb_lex.specs.Tokens.{AreSpans, Cuts};

use crate::fault::LexFault;
use crate::front::{Front, read_front};
use crate::token::{Token, Tokens};
use sdb_base::Text;
use std::alloc::Global;

/// The tokens of a text, or the first fault in it. A space, a tab, a carriage return and a line feed
/// separate tokens (SimpleDB Developer Guide, "Using Select to Create Amazon SimpleDB Queries").
pub fn lex(alloc: Global, text: &Text) -> Result<Tokens, LexFault>
    ensures cut { result ≢ Err LexFault.OutOfMemory → Cuts 0 text.now result }
    ensures rising { IfOk result (AreSpans 0 (length text.now)) }
{
    let bytes = text.as_str().as_bytes();
    let mut tokens = Tokens::new(alloc);
    let mut at = 0;
    'cut: while at < bytes.len() {
        let (_, rest) = bytes.split_at(at);
        match read_front(rest) {
            Front::Nothing => break,
            Front::Blank => at += 1,
            Front::Piece(kind, len) => {
                let upto = at + len;
                tokens.push(Token {
                    kind,
                    from: at,
                    upto,
                })?;
                at = upto;
            }
            Front::Bad(on) => return Err(LexFault::BadByte((at + on) as u64)),
            Front::Unclosed => return Err(LexFault::Unclosed(at as u64)),
        }
    }
    Ok(tokens)
}
