// Each call on its happy path.
use super::*;
use std::test::Fail;

#[test]
fn shapes_are_read(rt: HostRuntime) -> Result<(), Fail> {
    let alloc = rt.alloc();
    let value = read_json(
        alloc,
        b"{\"n\":7,\"t\":[1,2,3],\"o\":[{}],\"g\":[[[0,1]],[[2,-1]]]}",
    )?
    .expect(&rt, "the text is JSON");
    assert_eq!(rt; whole_member(&value, "n"), Some(7));
    for (name, number, triple_is) in [("n", Some(7), None), ("t", None, Some((1, 2, 3)))] {
        let member = value.get(name).expect(&rt, "the member is there");
        assert_eq!(rt; whole_u32(member), number);
        assert_eq!(rt; whole_up_to(member, 7), number.map(u64::from));
        assert_eq!(rt; triple(member), triple_is);
    }
    let list = value.get("o").expect(&rt, "the member is there");
    assert_eq!(rt; array_items(list).map(|items| items.len()), Some(1));
    assert_eq!(rt; objects(list).map(|items| items.len()), Some(1));
    let nested = value.get("g").expect(&rt, "the member is there");
    let grid = read_grid(alloc, nested, 3)?;
    let want = [Entry::Zero, Entry::One, Entry::Other, Entry::Other];
    assert_eq!(rt; grid.as_deref(), Some(want.as_slice()));
    assert!(rt; has_lengths(nested, &[2, 1, 2]));
    Ok(())
}
