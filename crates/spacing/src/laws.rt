ghost use Rattle.spacing.specs.Laws.{AcceptedAlone, FallsAgain, LaidReads, LaysApart, Longest, ReadsAgain};

// How many bytes the longest text of laid-out pieces has.
pub fn longest_text() -> u16
    ensures { Longest result }
{
    12288
}

// That laid-out pieces stand apart, and that their text is read again as just these pieces.
pub fn laid_text_is_read_again()
    ensures apart { LaysApart }
    ensures falls { FallsAgain }
    ensures reads { ReadsAgain }
    ensures laid { LaidReads }
    ensures accepted { AcceptedAlone }
{}
