// A call of the script, made at a desk.
ghost use Rattle.std.specs.Prelude.{◌≡◌, length, MatchResult};
ghost use Rattle.desk.specs.Desks.{state};
ghost use Rattle.script.specs.Lines.{asked};
ghost use Rattle.day.specs.Calls.{Made, Left};

use crate::answer::Answer;
use crate::call_error::CallError;
use book::Claim;
use desk::Desk;
use script::Call;
use seal::{Cipher, Field};
use std::alloc::AllocError;

// What the desk gives for the call, or why the call is not done. Each call has arguments and an answer of its own, so a match
// on it is plainer than closures would be.
fn make_call<F: Field, C: Cipher>(
    desk: &mut Desk<F, C>,
    call: Call,
    ring: &mut [u64],
) -> Result<Answer, CallError>
    ensures { Left (state F.Field.model C.Cipher.function desk.old) (asked call) (length ring.old) result (state F.Field.model C.Cipher.function desk.new) }
{
    Ok(match call {
        Call::Open { grave, key } => {
            desk.open(grave, key)?;
            Answer::Done
        }
        Call::Draw { grave } => Answer::Drawn(desk.draw(grave)?),
        Call::Seal { grave, draw, text } => {
            Answer::Sealed(desk.seal(grave, draw, text.as_slice(), ring)?)
        }
        Call::Void { grave, draw } => {
            desk.void(grave, draw)?;
            Answer::Done
        }
        Call::Check {
            grave,
            draw,
            text,
            seal,
        } => {
            let claim = Claim {
                draw,
                text: text.as_slice(),
                seal,
            };
            Answer::Standing(desk.check(grave, claim, ring)?)
        }
        Call::Clear { grave } => {
            desk.clear(grave)?;
            Answer::Done
        }
        Call::Close { grave } => {
            desk.close(grave)?;
            Answer::Done
        }
        Call::Tell { grave } => Answer::Account(desk.tell(grave)?),
        Call::Owing => Answer::Owing(desk.owing()),
    })
}

// The answer to a call that is made at the desk. The only error is want of memory, and then nothing changed.
pub fn run_call<F: Field, C: Cipher>(
    desk: &mut Desk<F, C>,
    call: Call,
    ring: &mut [u64],
) -> Result<Answer, AllocError>
    ensures { MatchResult result (λ a. Made (state F.Field.model C.Cipher.function desk.old) (asked call) (length ring.old) a (state F.Field.model C.Cipher.function desk.new)) (λ _. state F.Field.model C.Cipher.function desk.new ≡ state F.Field.model C.Cipher.function desk.old) }
{
    match make_call(desk, call, ring) {
        Ok(answer) => Ok(answer),
        Err(CallError::NotInHand) => Ok(Answer::NotInHand),
        Err(CallError::Refused(refusal)) => Ok(Answer::Refused(refusal)),
        Err(CallError::Memory(why)) => Err(why),
    }
}
