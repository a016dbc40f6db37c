//! Reading a text of SCL.

ghost use Rattle.std.specs.Prelude.{IfErr, IfOk};
ghost use Rattle.scl_reader.specs.Checked.{IsTextFault};
ghost use Rattle.scl_reader.specs.Laws.{IsExact};
ghost use Rattle.scl_reader.specs.Read.{IsRead};

use crate::program::program_of;
use crate::text_drafts::read_checked;
use sc_text::ReadFault;
use scl::Scl;
use std::alloc::Global;

/// The program that a text spells by the grammar of SCL and its rules, exactly where it spells one. Err: exactly where
/// it has it, the first place where no token stands; else the fault of its grammar; else the first of what is wrong
/// with its draft; or memory was refused, which says nothing of the text.
#[tactic(auto, using(crate::proofs::Reading::unflawed, crate::proofs::Reading::shaped, crate::proofs::Reading::is_read, crate::proofs::Exactly::read_exactly, crate::proofs::Exactly::faulty_exactly))]
pub fn read_scl(alloc: Global, text: &str) -> Result<Scl, ReadFault>
    ensures ok { IfOk result (λ program. IsRead text.now program) }
    ensures fault { IfErr result (λ fault. IsTextFault text.now fault) }
    ensures exact { IsExact text.now result }
{
    let draft = read_checked(alloc, text)?;
    let program = program_of(alloc, &draft)?;
    Ok(program)
}
