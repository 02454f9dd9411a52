ghost use Rattle.std.specs.Prelude.{◌≡◌, ◌^◌, ◌≤◌, None, IfNone};
ghost use Rattle.price_tables.specs.Limits.{IsPriceWithin, IsFareWithin};
ghost use Rattle.price_tables.specs.declared.fault.TableFault.TheVariants.{Limit};
ghost use Rattle.price_tables.specs.Faults.{over, price_over, fare_over};

use crate::fault::TableFault;
use crate::prices::{DcPrice, Fare};
use span_base::What;

/// The greatest price, in pico-dollars.
pub const MAX_PRICE: u64 = 1_000_000_000;
/// The greatest latency, and the greatest goal for one, in ms.
pub const MAX_LATENCY: u64 = 1_000_000;

/// The first number of a price that is above its limit.
pub(crate) fn price_over(price: &DcPrice) -> Option<TableFault>
    ensures first { result ≡ price_over price.now None }
    ensures within { IfNone result (IsPriceWithin price.now) }
{
    if price.store > MAX_PRICE {
        return Some(limit(What::Price, price.store));
    }
    if price.get > MAX_PRICE {
        return Some(limit(What::Price, price.get));
    }
    over(What::Price, MAX_PRICE, price.put)
}

/// The first number of a fare that is above its limit.
pub(crate) fn fare_over(fare: &Fare) -> Option<TableFault>
    ensures first { result ≡ fare_over fare.now None }
    ensures within { IfNone result (IsFareWithin fare.now) }
{
    if fare.transfer > MAX_PRICE {
        return Some(limit(What::Price, fare.transfer));
    }
    over(What::Latency, MAX_LATENCY, u64::from(fare.latency))
}

/// The number where it is above its limit.
fn over(what: What, most: u64, number: u64) -> Option<TableFault>
    ensures first { result ≡ over what most number None }
    ensures within { IfNone result (number ≤ most) }
{
    if number > most {
        Some(limit(what, number))
    } else {
        None
    }
}

/// The refusal of a number.
fn limit(what: What, number: u64) -> TableFault
    ensures { result ≡ Limit what number }
{
    TableFault::Limit {
        what,
        number: u128::from(number),
    }
}
