ghost use Rattle.std.specs.Prelude.{◌≡◌, ◌<◌, List, IfOk};
ghost use Rattle.pieces.specs.Reader.{found};
ghost use Rattle.pieces.specs.Pieces.{Found};
ghost use Rattle.text.specs.Notes.{Noted, Adds, pushed};
ghost use Rattle.text.specs.Inside.{Inside};
ghost use Rattle.text.specs.Tokens.{listed};
ghost use Rattle.text.specs.Verdict.{out_of_bounds, token_with, told, told_by, judged, Judged, Exactly};
ghost use Rattle.grammar.specs.Model.{Model};

use crate::notes::Notes;
use crate::token::{Token, Tokens};
use arrayvec::ArrayVec;
use faults::fault::{Fault, Position};
use grammar::grammar::Grammar;
use pieces::piece::Piece;
use pieces::reader::PieceReader;

// The limits on a text's pieces: the bytes of one, the column where one may begin, and how many there are.
const MAX_PIECE_BYTES: usize = 32;

const LAST_COLUMN: u16 = 63;

const MAX_PIECES: usize = 128;

// Whether a piece has more than 32 bytes or begins past column 63.
fn is_out_of_bounds(piece: &Piece) -> bool
    ensures { result ≡ out_of_bounds (found piece.now) }
{
    piece.bytes.len() > MAX_PIECE_BYTES || piece.position.column > LAST_COLUMN
}

// The token of a piece with that terminal; none for a piece out of bounds.
fn token_with(piece: &Piece, terminal: Option<u8>) -> Option<Token>
    ensures { result ≡ token_with (found piece.now) terminal }
{
    if is_out_of_bounds(piece) {
        return None;
    }
    let terminal = terminal?;
    let Position { line, column } = piece.position;
    Some(Token {
        start: piece.start,
        length: piece.bytes.len() as u8,
        line,
        column: column as u8,
        terminal,
    })
}

impl Notes {
    // Notes one piece more.
    fn add<G: Grammar>(&mut self, g: &G, piece: Piece)
        requires few { self.old.count < 12288 }
        ensures { Adds (G.model g.now) self.old (found piece.entry) self.new }
    {
        let here = piece.position;
        let terminal = g.terminal(piece.bytes);
        let outside = is_out_of_bounds(&piece).then_some(here);
        let unknown = terminal.is_none().then_some(here);
        self.count += 1;
        self.out_of_bounds = self.out_of_bounds.or(outside);
        self.unknown = self.unknown.or(unknown);
        if let Some(token) = token_with(&piece, terminal) {
            // A token that finds no room is let go: the count tells that there are too many.
            let _ = self.tokens.try_push(token);
        }
    }

    // The verdict on the pieces that were noted.
    fn verdict(self) -> Result<ArrayVec<Token, 128>, Fault>
        ensures { (G : Model) (ps : List Found) → Noted G ps self → told_by pushed result ≡ judged G ps }
    {
        let Notes {
            count,
            out_of_bounds,
            unknown,
            tokens,
        } = self;
        if let Some(at) = out_of_bounds {
            return Err(Fault::PieceOutOfBounds(at));
        }
        if count == 0 || count > MAX_PIECES {
            return Err(Fault::PieceCount);
        }
        if let Some(at) = unknown {
            return Err(Fault::NoTerminal(at));
        }
        Ok(tokens)
    }
}

// The tokens of a text under a grammar, or the first reason to refuse it.
pub fn scan<G: Grammar>(g: &G, text: &[u8]) -> Result<Tokens, Fault>
    ensures judged { Exactly (Judged (G.model g.now) text.now) (told result) }
    ensures inside { IfOk result (λ ts. Inside text.now (listed ts)) }
{
    let mut reader = PieceReader::new(text);
    let mut notes = Notes::default();
    while let Some(piece) = reader.next_piece()? {
        notes.add(g, piece);
    }
    let list = notes.verdict()?;
    Ok(Tokens::new(list))
}
