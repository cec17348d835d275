ghost use Rattle.std.specs.Prelude.{◌≡◌, ◌≤◌, length};
ghost use Rattle.text.specs.Tokens.{listed};

use crate::token::{Token, Tokens};
use arrayvec::ArrayVec;

impl Tokens {
    // Just these tokens.
    pub(crate) fn new(list: ArrayVec<Token, 128>) -> Tokens
        requires { length list.items ≤ 128 }
        ensures { listed result ≡ list.items }
    {
        Tokens { list }
    }

    // The tokens in the order of the text.
    pub fn as_slice(&self) -> &[Token]
        ensures { result.now ≡ listed self.now }
    {
        self.list.as_slice()
    }
}
