// Reading the bytes of an image.
ghost use Rattle.std.specs.Prelude.{◌≡◌, drop, None, vec_items};
ghost use Rattle.image.specs.Hex.{hex};
ghost use Rattle.image.specs.Read.{Answers};

use crate::digit::{Turn, next};
use crate::trouble::{Cause, ImageError};
use std::alloc::Global;

// The bytes that the text spells from an index on, or why not and where.
// Both digits of a byte are read in one turn: by a turn for each, the loop asks at every digit which one it is, and
// runs half as many instructions again. The lemma is for such a turn.
#[tactic(auto, using(crate::proofs::Pairs::pair))]
pub(crate) fn read_bytes(heap: Global, text: &[u8], from: usize) -> Result<Vec<u8>, ImageError>
    ensures { Answers vec_items text.now (hex None from (drop from text.now)) result }
{
    let mut bytes = Vec::new(heap);
    let mut at = from;
    while let Some(&first) = text.get(at) {
        match next(None, first).map_err(|cause| cause.at(text, at))? {
            Turn::High(high) => {
                let Some(&second) = text.get(at + 1) else {
                    return Err(Cause::HalfByte.at(text, text.len()).into());
                };
                let turn = next(Some(high), second);
                if let Turn::Byte(byte) = turn.map_err(|cause| cause.at(text, at + 1))? {
                    bytes.push(byte)?;
                }
                at += 2;
            }
            _ => at += 1,
        }
    }
    Ok(bytes)
}
