ghost use Rattle.std.specs.Prelude.{◌≡◌, ◌≤◌, length, take};
ghost use Rattle.text.specs.Inside.{InText, bytes_at};
ghost use Rattle.text.specs.Tokens.{listed};
ghost use Rattle.galley.specs.Loads.{bytes_of, byte_count, record_of, records_of};
ghost use Rattle.galley.specs.Stores.{front, room};

use crate::source::Source;
use crate::store::Store;
use text::token::{Token, Tokens};
use tree::piece::PieceRecord;

// How many bytes the tokens have.
pub(crate) fn count_bytes(tokens: &Tokens) -> usize
    ensures { result ≡ byte_count (listed tokens.now) }
{
    tokens
        .as_slice()
        .iter()
        .map(|token| token.length as usize)
        .sum()
}

// The bytes of a token in its text.
fn bytes_at<'t>(text: &'t [u8], token: &Token) -> &'t [u8]
    requires { InText text.now token.now }
    ensures { result.now ≡ bytes_at text.now token.now }
{
    let start = token.start as usize;
    &text[start..start + token.length as usize]
}

// Copies the bytes of the tokens to the front of a memory, without gaps, and answers how many they are.
fn load_bytes(memory: &mut [u8], source: &Source) -> usize
    requires { byte_count (listed source.now.tokens.now) ≤ length memory.old }
    ensures count { result ≡ byte_count (listed source.now.tokens.now) }
    ensures after { take result memory.new ≡ bytes_of source.now.text.now (listed source.now.tokens.now) }
{
    // No rest of the memory in place of `end`, as in the line writer: what was written in front of it would not be known.
    let mut end = 0;
    for token in source.tokens.as_slice() {
        let bytes = bytes_at(source.text, token);
        memory[end..end + bytes.len()].copy_from_slice(bytes);
        end += bytes.len();
    }
    end
}

// The record of a token's piece; no `From`, since both types are of other crates.
fn record_of(token: &Token) -> PieceRecord
    ensures { result ≡ record_of token.now }
{
    PieceRecord {
        length: token.length,
        terminal: token.terminal,
        column: 0,
        opens_line: false,
    }
}

// Writes the records of the tokens' pieces to the front of a memory.
fn load_pieces(memory: &mut [PieceRecord], tokens: &[Token])
    requires { length tokens.now ≤ length memory.old }
    ensures { take (length tokens.now) memory.new ≡ records_of tokens.now }
{
    let mut tokens = tokens.iter();
    for record in memory.iter_mut() {
        let Some(token) = tokens.next() else { break };
        *record = record_of(token);
    }
}

impl Store<'_, u8> {
    // Holds just the bytes of the tokens.
    pub(crate) fn hold_bytes(&mut self, source: &Source)
        requires { byte_count (listed source.now.tokens.now) ≤ room self.old }
        ensures used { self.new.used ≡ byte_count (listed source.now.tokens.now) }
        ensures room { room self.new ≡ room self.old }
        ensures front { front self.new ≡ bytes_of source.now.text.now (listed source.now.tokens.now) }
    {
        self.used = load_bytes(self.memory, source);
    }
}

impl Store<'_, PieceRecord> {
    // Holds just the pieces of the tokens.
    pub(crate) fn hold_pieces(&mut self, tokens: &Tokens)
        requires { length (listed tokens.now) ≤ room self.old }
        ensures used { self.new.used ≡ length (listed tokens.now) }
        ensures room { room self.new ≡ room self.old }
        ensures front { front self.new ≡ records_of (listed tokens.now) }
    {
        let tokens = tokens.as_slice();
        load_pieces(self.memory, tokens);
        self.used = tokens.len();
    }
}
