//! What a line says, where it has no fault.
ghost use Rattle.std.specs.Prelude.{◌≡◌};
ghost use Rattle.rv32_asm.specs.Rows.{said};

use crate::refusal::AsmCause;
use crate::statement::Statement;

/// The statement, or the fault in its place.
pub fn said<'a>(
    fault: Option<AsmCause>,
    statement: Statement<'a>,
) -> Result<Statement<'a>, AsmCause>
    ensures { result ≡ said fault statement.entry }
{
    match fault {
        None => Ok(statement),
        Some(cause) => Err(cause),
    }
}
