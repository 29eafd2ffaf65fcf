//! What a call gives, written to the caller's bytes.
ghost use Rattle.layer_calls.specs.Show.{Shows};

use crate::outcome::{LayerOutcome, LayerReply};
use handles::lay;
use handles::typed_calls::status::OK;

/// Writes as much of the bytes that a call gives to `out` as fits: `OK`, with the reply's number and
/// the length of all of them. Else the call's refusal, and `out` stays. No call keeps anything, so
/// it may be made again with more room.
pub fn show(answer: Result<LayerReply, LayerOutcome>, out: &mut [u8]) -> LayerOutcome
    ensures { Shows answer out.old result out.new }
{
    match answer {
        Ok(reply) => {
            let code = reply.code.as_slice();
            lay(out, code);
            LayerOutcome {
                status: OK,
                column: 0,
                number: reply.number,
                length: code.len(),
            }
        }
        Err(outcome) => outcome,
    }
}
