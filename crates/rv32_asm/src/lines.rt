//! What a line says.
ghost use Rattle.std.specs.Prelude.{◌≡◌};
ghost use Rattle.rv32_asm.specs.Lines.{front, ends_with_colon, label_row, other_row, reading_of_statement, reading};

use crate::refusal::AsmCause;
use crate::rows::row;
use crate::statement::Statement;
use asm_words::{Operands, Word, is_keyword, is_name, keyword, listed, read_mnemonic, statement};

/// What a line says, or the fault that it has for itself.
#[tactic(auto, unfolding(crate::specs::Lines::reading))]
pub fn read_line(line: &[u8]) -> Result<Statement<'_>, AsmCause>
    ensures { result ≡ reading line.now }
{
    read_statement(statement(line))
}

fn read_statement(statement: &[u8]) -> Result<Statement<'_>, AsmCause>
    ensures { result ≡ reading_of_statement statement.now }
{
    if statement.is_empty() {
        return Ok(Statement::Blank);
    }
    let word = keyword(statement);
    let operands = listed(statement);
    match read_mnemonic(word) {
        Some(mnemonic) => row(mnemonic, operands),
        None => other_row(word, &operands),
    }
}

/// What a line says whose first word is no mnemonic and no directive.
fn other_row<'a>(word: &'a [u8], operands: &Operands<'a>) -> Result<Statement<'a>, AsmCause>
    ensures { result ≡ other_row word.now operands.now }
{
    if is_keyword(word) {
        Err(AsmCause::Name)
    } else {
        label_row(word, operands)
    }
}

fn label_row<'a>(word: &'a [u8], operands: &Operands<'a>) -> Result<Statement<'a>, AsmCause>
    ensures { result ≡ label_row word.now operands.now }
{
    let Operands::Nothing = operands else {
        return Err(AsmCause::Shape);
    };
    if ends_with_colon(word) && is_name(front(word)) {
        Ok(Statement::Label(Word::new(front(word))))
    } else {
        Err(AsmCause::Shape)
    }
}

fn ends_with_colon(word: &[u8]) -> bool
    ensures { result ≡ ends_with_colon word.now }
{
    0 < word.len() && word[word.len() - 1] == b':'
}

/// A word without its last byte.
fn front(word: &[u8]) -> &[u8]
    ensures { result.now ≡ front word.now }
{
    &word[..word.len().saturating_sub(1)]
}
