//! Laws of the spelling. The functions do nothing: their contracts are the laws.
ghost use Rattle.rv32_text.specs.Alike.{AlikeInstructionsHaveOneSpelling, SpellingsAreUnique};

/// Two instructions of one spelling are one instruction, or two fences with the same sets: the fm,
/// rd and rs1 of a fence are not written.
pub fn spellings_are_unique()
    ensures { SpellingsAreUnique }
{}

/// Two such fences have one spelling.
pub fn alike_instructions_have_one_spelling()
    ensures { AlikeInstructionsHaveOneSpelling }
{}
