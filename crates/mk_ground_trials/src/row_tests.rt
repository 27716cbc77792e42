// Items by number, from outside.
use mk_rows::ByNumber;
use std::alloc::Global;
use std::test::Fail;

fn put(map: &mut ByNumber<u8>, number: u32, item: u8) -> Result<(), Fail> {
    if map.holds(number) {
        return Err(Fail::from("a number that is held"));
    }
    map.reserve(1)?;
    map.insert(number, item);
    Ok(())
}

// Whether the numbers 30 and 10 are held by rising number.
fn are_held(alloc: Global) -> Result<bool, Fail> {
    let mut map = ByNumber::new(alloc);
    put(&mut map, 30, 3)?;
    put(&mut map, 10, 1)?;
    let places = map.place(10) == 0 && map.place(11) == 1 && map.place(31) == 2;
    Ok(places && map.get(30) == Some(&3) && map.next_row(11) == Some(30))
}

#[test]
fn items_by_number(rt: HostRuntime) -> Result<(), Fail> {
    assert!(rt; are_held(rt.alloc())?);
    Ok(())
}
