//! Laws of the words. The functions do nothing: their contracts are the laws.
ghost use Rattle.asm_words.specs.Again.{NumbersAreRead, RegistersAreRead, FenceSetsAreRead, MnemonicsAreRead};

/// The number read from the decimal spelling of a number is that number.
pub fn numbers_are_read()
    ensures { NumbersAreRead }
{}

/// The register read from the name of a register is that register.
pub fn registers_are_read()
    ensures { RegistersAreRead }
{}

/// The set read from the spelling of a fence's set is that set.
pub fn fence_sets_are_read()
    ensures { FenceSetsAreRead }
{}

/// The mnemonic or directive read from its spelling is itself.
pub fn mnemonics_are_read()
    ensures { MnemonicsAreRead }
{}
