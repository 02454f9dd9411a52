ghost use Rattle.std.specs.Prelude.{◌≡◌};

use super::*;
use std::test::Fail;

fn handle(slot: u32, generation: u32) -> Handle
    ensures { result ≡ record { slot = slot; generation = generation } }
{
    Handle { slot, generation }
}

#[test]
fn a_taken_handle_is_stale(rt: HostRuntime) -> Result<(), Fail> {
    let mut pool = Pool::make(rt.alloc(), 2)?;
    for generation in 1..3 {
        let first = handle(0, generation);
        assert_eq!(rt; pool.put('a'), Ok(first));
        assert_eq!(rt; pool.handle_at(0), Some(first));
        assert_eq!(rt; pool.take(first), Some('a'));
        assert_eq!(rt; pool.get(first).copied(), None);
    }
    assert_eq!(rt; (pool.live(), pool.capacity()), (0, 2));
    Ok(())
}

#[test]
fn an_item_that_owns_memory_is_written_and_taken(rt: HostRuntime) -> Result<(), Fail> {
    let mut pool = Pool::make(rt.alloc(), 1)?;
    let Ok(first) = pool.put(String::from_str(rt.alloc(), "a")?) else {
        return Err("full".into());
    };
    if let Some(text) = pool.get_mut(first) {
        text.push_str("b")?;
    }
    let text = pool.take(first).ok_or("not live")?;
    assert_eq!(rt; text.as_str(), "ab");
    taken_handles_never_answer::<String>();
    Ok(())
}

#[test]
fn a_million_items_come_and_go(rt: HostRuntime) -> Result<(), Fail> {
    let mut pool = Pool::make(rt.alloc(), 1_000_000)?;
    for slot in 0..1_000_000 {
        assert_eq!(rt; pool.put(slot), Ok(handle(slot, 1)));
    }
    assert_eq!(rt; pool.put(0), Err(Full { item: 0 }));
    for slot in 0..1_000_000 {
        let _ = pool.take(handle(slot, 1));
    }
    assert_eq!(rt; (pool.live(), pool.next_handle()), (0, Some(handle(0, 2))));
    Ok(())
}
