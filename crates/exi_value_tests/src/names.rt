use exi_names::{
    Datatype, Event, EventList, EventOut, Octets, PushStop, QName, StartNames, TextStop, Txt, Val,
    ValList, Whole,
};
use std::alloc::{AllocError, Global};
use std::test::Fail;

fn name(alloc: Global) -> Result<QName, AllocError> {
    Ok(QName {
        uri: Txt::of(alloc, "urn:u")?,
        local: Txt::of(alloc, "l")?,
        prefix: Some(Txt::of(alloc, "p")?),
    })
}

fn attribute(alloc: Global) -> Result<Event, AllocError> {
    Ok(Event::At(name(alloc)?, Val::Int(Whole::new(true, 7))))
}

#[test]
fn events_are_taken(rt: HostRuntime) -> Result<(), Fail> {
    let event = attribute(rt.alloc())?;
    let mut list = EventList::new(rt.alloc());
    list.push(event.copy(rt.alloc())?)?;
    list.add(event)?;
    assert_eq!(rt; list.len(), 2);
    assert_eq!(rt; list.into_vec().len(), 2);
    Ok(())
}

#[test]
fn values_are_copied(rt: HostRuntime) -> Result<(), Fail> {
    let alloc = rt.alloc();
    let mut list = ValList::new(alloc);
    list.push(Val::Name(name(alloc)?))?;
    let choice = Datatype::Choice {
        base: Box::new(alloc, Datatype::Integer)?,
        values: list.copy(alloc)?,
    };
    assert!(rt; choice.copy(alloc)?.same(&choice));
    assert!(rt; list.place_of(&list.as_slice()[0]) == Some(0) && !list.have_text());
    assert_eq!(rt; list.into_vec().len(), 1);
    Ok(())
}

#[test]
fn octets_grow(rt: HostRuntime) -> Result<(), Fail> {
    let mut octets = Octets::new(rt.alloc());
    octets.reserve(3)?;
    octets.push(3)?;
    octets.add(&[4, 5])?;
    let copy = Octets::from_vec(octets.copy()?.into_vec());
    assert_eq!(rt; copy.as_slice(), [3, 4, 5].as_slice());
    Ok(())
}

#[test]
fn first_tables_are_there(rt: HostRuntime) -> Result<(), Fail> {
    let names = StartNames::without_schema(rt.alloc())?;
    assert_eq!(rt; names.uris().copy(rt.alloc())?.into_vec().len(), 3);
    assert_eq!(rt; names.locals().as_slice().len(), 3);
    Ok(())
}

#[test]
fn stops_are_printed(rt: HostRuntime) -> Result<(), Fail> {
    let shown = format!(in rt.alloc(); "{}, {}", PushStop::Stopped, TextStop::Syntax(3))?;
    assert_eq!(rt;
        shown.as_str(),
        "the events are taken no further, line 3 is not of the form"
    );
    Ok(())
}
