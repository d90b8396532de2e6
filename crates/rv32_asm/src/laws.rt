//! Laws of the assembler. The functions do nothing: their contracts are the laws.
ghost use Rattle.rv32_asm.specs.Least.{AcceptedLinesHaveNoCause, RefusalsAreLeast};
ghost use Rattle.rv32_asm.specs.Orders.{BytesFollowLines, PairsGiveTheirValue};
ghost use Rattle.rv32_asm.specs.Texts.{TextsAreRead};

/// A line with the spelling of an instruction says the word of that instruction; of a fence the fm, rd and
/// rs1 are not spelled, and are 0.
pub fn texts_are_read()
    ensures { TextsAreRead }
{}

/// The pair of instructions of `li` and `la` gives its register the value, whatever it is.
pub fn pairs_give_their_value()
    ensures { PairsGiveTheirValue }
{}

/// The bytes of the segments of an accepted source are those of its lines, in their order.
pub fn bytes_follow_lines()
    ensures { BytesFollowLines }
{}

/// A line that a refusal tells is the least that has a cause, by what stands before it, and the cause is its
/// first.
pub fn refusals_are_least()
    ensures { RefusalsAreLeast }
{}

/// No line of a source that is accepted has a cause.
pub fn accepted_lines_have_no_cause()
    ensures { AcceptedLinesHaveNoCause }
{}
