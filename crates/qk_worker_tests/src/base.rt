//! Lists by hand, with ample memory.

use qk_base::Seq;
use std::test::Fail;

#[test]
fn lists(rt: HostRuntime) -> Result<(), Fail> {
    let mut list = Seq::<u32>::make(rt.alloc());
    assert_eq!(rt; list.pop(), None);
    list.reserve(3)?;
    assert!(rt; list.push(1).is_ok());
    assert!(rt; list.push(2).is_ok());
    list.add(3)?;
    list.append([4, 5].as_slice())?;
    assert_eq!(rt; list.len(), 5);
    if let Some(first) = list.as_mut_slice().first_mut() {
        *first = 9;
    }
    assert_eq!(rt; list.as_slice(), [9, 2, 3, 4, 5].as_slice());
    assert_eq!(rt; list.get(4).copied(), Some(5));
    assert_eq!(rt; list.get(5), None);
    assert_eq!(rt; list.pop(), Some(5));
    Ok(())
}
