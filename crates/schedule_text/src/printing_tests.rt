use crate::{Events, Form, push_event, push_header, read_schedule};
use std::alloc::Global;
use std::test::Fail;

/// Texts of every kind of line, each of which is the one of what it says.
const TEXTS: [&[u8]; 2] = [
    b"span-schedule 1\nreplicas 3\nset strong 0 0/0,1/1,2 1/1/0,1,2\nkey 0\nproxy 0\nproxy 15\nbegin\nwrite 0 0 aa0f\nread 1 0\nmove 0 0\npublish\npublish 0 strong 1 0/0,1/1,2 4/2/0\ndeliver 4294967295\nstop replica 2\nstop proxy 1\ngive-up 0 7\n",
    b"span-schedule 1\nreplicas 3\nset direct 0 0,2 0>0\nset relay 1 0,2 0>2>0,0 10>0>0,0\nkey 1\nkey 0\nproxy 0\nbegin\npublish 1 relay 0 1 0>1>1 ; 0 direct 0 2 0>2\nput 0 0 -\nget 0 1\ngetany 0 0\n",
];

/// The text of what a text says.
fn text_again(alloc: Global, text: &[u8]) -> Result<String, Fail> {
    let opening = read_schedule(alloc, text, Form::Plain)?;
    let mut again = String::new(alloc);
    push_header(&mut again, &opening.header)?;
    let mut events = Events::make(opening.place, text);
    push_events(alloc, &mut again, &mut events)?;
    Ok(again)
}

fn push_events(alloc: Global, text: &mut String, events: &mut Events<'_>) -> Result<(), Fail> {
    for _ in 0..20 {
        let Some(event) = events.next(alloc)? else {
            return Ok(());
        };
        push_event(text, &event)?;
        write!(text, "\n")?;
    }
    Ok(())
}

#[test]
fn texts_are_printed_as_they_were(rt: HostRuntime) -> Result<(), Fail> {
    for text in TEXTS {
        let again = text_again(rt.alloc(), text)?;
        assert_eq!(rt; again.as_bytes(), text);
    }
    Ok(())
}
