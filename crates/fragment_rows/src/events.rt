use frag_tree::{Event, Events, Said};
use pac_base::Width;
use std::test::Fail;

#[test]
fn events_are_kept_in_order(rt: HostRuntime) -> Result<(), Fail> {
    let mut events = Events::new(rt.alloc());
    events.reserve(2)?;
    events.push(Event::Read {
        address: 4,
        width: Width::W8,
        value: 7,
    })?;
    events.push(Event::Say(Said::Truth(true)))?;
    assert!(rt; events.len() == 2);
    assert!(rt; matches!(events.get(1), Some(Event::Say(Said::Truth(true)))));
    Ok(())
}
