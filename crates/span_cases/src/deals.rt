//! What the link of a run gives next, as a text tells it.

ghost use Rattle.std.specs.Prelude.{All, IfOk, IfSome};
ghost use Rattle.frame_link.specs.Deals.{IsShortDeal};

use frame_link::Deal;
use hex::FromHexError;
use span_base::Bytes;
use std::alloc::{AllocError, Global};

/// The most bytes that a frame may have.
const FRAME_BYTES: usize = 8192;

/// The deals of a text, with `, ` between them: `next`, `drop`, `again N`, or `forge NODE HEX`. None
/// where one of them is none.
pub fn deals_of(alloc: Global, text: &str) -> Result<Option<Vec<Deal>>, AllocError>
    ensures { IfOk result (λ deals. IfSome deals (λ it. All IsShortDeal it.items)) }
{
    let mut deals = Vec::new(alloc);
    for word in text.split(", ") {
        match deal_of(alloc, word)? {
            Some(deal) => deals.push(deal)?,
            None => return Ok(None),
        }
    }
    Ok(Some(deals))
}

fn deal_of(alloc: Global, word: &str) -> Result<Option<Deal>, AllocError>
    ensures { IfOk result (λ deal. IfSome deal IsShortDeal) }
{
    match word {
        "next" => return Ok(Some(Deal::Next)),
        "drop" => return Ok(Some(Deal::Drop)),
        _ => {}
    }
    if let Some(number) = word.strip_prefix("again ") {
        let Ok(n) = number.parse::<u32>() else {
            return Ok(None);
        };
        return Ok(Some(Deal::Again { n }));
    }
    match word.strip_prefix("forge ") {
        Some(forged) => forged_of(alloc, forged),
        None => Ok(None),
    }
}

// A frame that is forged: its node, and its bytes in hexadecimal digits.
fn forged_of(alloc: Global, forged: &str) -> Result<Option<Deal>, AllocError>
    ensures { IfOk result (λ deal. IfSome deal IsShortDeal) }
{
    let Some((node, digits)) = forged.split_once(' ') else {
        return Ok(None);
    };
    let Ok(to) = node.parse::<u16>() else {
        return Ok(None);
    };
    match hex::decode(alloc, digits.as_bytes()) {
        Ok(frame) if frame.len() <= FRAME_BYTES => Ok(Some(Deal::Forge {
            to,
            frame: Bytes::from_vec(frame),
        })),
        Err(FromHexError::OutOfMemory) => Err(AllocError),
        _ => Ok(None),
    }
}
