//! Reading listings.
ghost use Rattle.std.specs.Prelude.{◌≡◌, ◌++◌, ◌≤◌, List, Result, Err, IfOk, length};
ghost use Rattle.spv_base.specs.Answers.{Answers};
ghost use Rattle.spv_base.specs.declared.causes.Fail.TheVariants.{Refused};
ghost use Rattle.spv_base.specs.declared.causes.Refusal.{Refusal};
ghost use Rattle.spv_base.specs.declared.instructions.Inst.{Inst};
ghost use Rattle.spv_ops.specs.Encoding.{encoding};
ghost use Rattle.spv_ops.specs.Steps.{seen};
ghost use Rattle.spv_text.specs.declared.lines.Wrong.{Wrong};
ghost use Rattle.spv_text.specs.Spelling.{line_text};
ghost use Rattle.spv_text.specs.Listing.{line_of};
ghost use Rattle.spv_text.specs.Reading.{code_of, IsAnswer, IsRead, IsWrong, HasLineAt};

use crate::inst_reading::inst_of;
use crate::line_reading::line_at;
use crate::lines::Wrong;
use spv_base::{Fail, Inst, Refusal};
use std::alloc::Global;

/// A module's first instruction stands at this word, behind the header (SPIR-V 1.6 section 2.3).
const FIRST_WORD: u64 = 5;

impl Wrong {
    /// The code of the refusal.
    fn code(self) -> u8
        ensures { result ≡ code_of self }
    {
        match self {
            Wrong::NoLine => 1,
            Wrong::UnknownName => 2,
            Wrong::WrongOperands => 3,
            Wrong::Misplaced => 4,
        }
    }
}

/// The instruction of the first line of a text, which is to stand at this word, the number of its words, and what follows
/// the line.
fn next_inst(alloc: Global, text: &[u8], word: u64) -> Result<(Inst, u64, &[u8]), Fail<Wrong>>
    ensures ok { IfOk result (λ it. HasLineAt word it.0 × (text.now ≡ line_text (line_of it.0) ++ it.2.now) × (it.1 ≡ length (encoding it.0))) }
    ensures few { IfOk result (λ it. it.1 ≤ 65535) }
    ensures err { (wrong : Wrong) → result ≡ Err (Refused wrong) → IsWrong wrong word text.now }
{
    let Some((line, rest)) = line_at(alloc, text)? else {
        return Err(Fail::Refused(Wrong::NoLine));
    };
    let (inst, words) = match inst_of(alloc, &line, word) {
        Ok(found) => found,
        Err(fail) => return Err(fail),
    };
    Ok((inst, words, rest))
}

/// The instructions of which a text is the listing, from word 5 on. A text that is no listing is refused at its lowest wrong
/// line, whose number from 1 is the refusal's word: where no line stands (X1), where no opcode has its name (X2), where its
/// parts aren't of the opcode's grammar (X3), or where the instruction has more than 65,535 words or doesn't stand behind those
/// before (X4).
pub fn read_listing(alloc: Global, text: &[u8]) -> Result<Vec<Inst>, Fail<Refusal>>
    requires { length text.now ≤ 67108864 }
    ensures due { IsAnswer text.now (seen (λ insts. insts.items) result) }
    // Reading a listing gives its instructions, and a text that is read is the listing of what it gives.
    ensures answered { (due : Result (List Inst) Refusal) → IsRead text.now due → Answers due (seen (λ insts. insts.items) result) }
{
    let mut insts = Vec::new(alloc);
    let mut rest = text;
    let mut word = FIRST_WORD;
    while !rest.is_empty() {
        let (inst, words, more) = match next_inst(alloc, rest, word) {
            Ok(next) => next,
            Err(Fail::Refused(wrong)) => {
                return Err(Fail::Refused(Refusal {
                    code: wrong.code(),
                    word: insts.len() as u32 + 1,
                }));
            }
            Err(Fail::NoMemory) => return Err(Fail::NoMemory),
        };
        insts.push(inst)?;
        word += words;
        rest = more;
    }
    Ok(insts)
}
