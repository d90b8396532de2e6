//! Laws of the layout. The functions do nothing: their contracts are the laws.
ghost use Rattle.std.specs.Prelude.{◌≡◌};
ghost use Rattle.dash_base.specs.declared.instr.Instr.{Instr};
ghost use Rattle.rv32_decode.specs.Layout.{word_of};

/// No two instructions have one word.
pub fn one_word()
    ensures { (i : Instr) → (j : Instr) → word_of i ≡ word_of j → i ≡ j }
{}
