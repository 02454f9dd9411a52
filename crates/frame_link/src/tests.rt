ghost use Rattle.std.specs.Prelude.{◌≡◌, ◌≤◌, All, IfOk, length};
ghost use Rattle.frame_link.specs.Deals.{IsShortDeal};

use crate::*;
use span_base::{Bytes, DeviceFault};
use std::alloc::{AllocError, Global};
use std::process::Abort;
use std::test::Fail;

// The link answers next with this frame for its node, or with nothing.
fn answers<L: Link>(
    rt: &impl Abort,
    link: &mut L,
    buf: &mut [u8],
    want: Option<(u16, &[u8])>,
) -> Result<(), Fail>
    requires { 8192 ≤ length buf.old }
{
    match link.next(buf)? {
        Arrival::Nothing => assert!(rt; want.is_none()),
        Arrival::Frame { to, len } => assert_eq!(rt; Some((to, &buf[..len])), want),
    }
    Ok(())
}

fn expect<L: Link>(
    rt: &impl Abort,
    alloc: Global,
    link: &mut L,
    wanted: &[Option<(u16, &[u8])>],
) -> Result<(), Fail> {
    let mut buf = Vec::new(alloc);
    buf.resize(8_192, 0)?;
    let buf = buf.as_mut_slice();
    for want in wanted {
        answers(rt, link, buf, *want)?;
    }
    Ok(())
}

fn send_three<L: Link>(link: &mut L) -> Result<(), DeviceFault> {
    link.send(1, b"a")?;
    link.send(2, b"")?;
    link.send(1, b"ccc")
}

#[test]
fn each_frame_comes_once_and_in_order(rt: HostRuntime) -> Result<(), Fail> {
    let alloc = rt.alloc();
    let mut link = CalmLink::make(alloc);
    expect(&rt, alloc, &mut link, &[None])?;
    send_three(&mut link)?;
    let all = [
        Some((1, b"a".as_slice())),
        Some((2, b"".as_slice())),
        Some((1, b"ccc".as_slice())),
        None,
    ];
    expect(&rt, alloc, &mut link, &all)
}

// The second frame isn't passed by the first three deals, and the last is as the next frame.
fn deals(alloc: Global) -> Result<Vec<Deal>, AllocError>
    ensures { IfOk result (λ deals. All IsShortDeal deals.items) }
{
    let frame = Bytes::from_vec(b"x".to_vec(alloc)?);
    let mut deals = Vec::new(alloc);
    deals.push(Deal::Drop)?;
    deals.push(Deal::Again { n: 2 })?;
    deals.push(Deal::Forge { to: 9, frame })?;
    deals.push(Deal::Again { n: 3 })?;
    Ok(deals)
}

#[test]
fn deals_are_taken_one_after_another(rt: HostRuntime) -> Result<(), Fail> {
    let alloc = rt.alloc();
    let mut link = MemLink::make(alloc, deals(alloc)?, [4].to_vec(alloc)?);
    send_three(&mut link)?;
    assert_eq!(rt; link.send(1, b"lost"), Err(DeviceFault::Failed));
    let all = [
        Some((1, b"ccc".as_slice())),
        Some((9, b"x".as_slice())),
        Some((2, b"".as_slice())),
        Some((1, b"ccc".as_slice())),
        None,
    ];
    expect(&rt, alloc, &mut link, &all)
}
