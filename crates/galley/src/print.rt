ghost use Rattle.std.specs.Prelude.{◌≡◌, ◌+◌, ◌≤◌, length, MatchResult};
ghost use Rattle.galley.specs.Prints.{Prints};

use crate::galley::Galley;
use crate::slip::Declined;
use faults::fault::Fault;
use grammar::grammar::Grammar;
use policy::policy::Policy;

impl Galley<'_> {
    // Lays the tree out and writes its text into the buffer from `start` on; a text that does not fit is let go again.
    pub fn lay_and_write<G: Grammar, P: Policy>(
        &mut self,
        g: &G,
        policy: &P,
        buffer: &mut [u8],
        start: usize,
    ) -> Result<usize, Fault>
        ensures prints { Prints (G.Grammar.model g.now) (P.Policy.answers policy.now) self.old
            buffer.old start result self.new buffer.new }
        ensures fits { MatchResult result (λ n. start + n ≤ length buffer.old) (λ _. buffer.new ≡ buffer.old) }
    {
        let slip = self.lay(g, policy)?;
        // No `map_err`: what lets the slip go changes the galley, and a closure that does so needs clauses of its own.
        match self.write(slip, buffer, start) {
            Ok(length) => Ok(length),
            Err(Declined { fault, slip }) => {
                self.let_go(slip);
                Err(fault)
            }
        }
    }
}
