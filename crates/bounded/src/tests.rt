// Every method at a list of at most three numbers.
ghost use Rattle.std.specs.Prelude.{not, ◌==◌};

use super::{Bounded, Choice, Full};
use std::test::Fail;

#[derive(Clone, Copy)]
struct Not(u8);

impl Choice<u8> for Not {
    ghost chooses = { λ s n. not (n == s.0) };

    fn chooses(self, element: u8) -> bool {
        element != self.0
    }
}

#[test]
fn fills_and_refuses(rt: HostRuntime) -> Result<(), Fail> {
    let mut list = Bounded::<u8, 3>::new(0);
    assert!(rt; list.is_empty());
    list.push(4)?;
    list.push(6)?;
    list.insert(1, 5)?;
    assert_eq!(rt; list.as_slice(), [4, 5, 6].as_slice());
    assert_eq!(rt; list.len(), 3);
    assert_eq!(rt; list.get(2), Some(6));
    assert_eq!(rt; list.get(3), None);
    assert_eq!(rt; list.push(7), Err(Full));
    assert_eq!(rt; list.insert(0, 7), Err(Full));
    assert_eq!(rt; list.as_slice(), [4, 5, 6].as_slice());
    Ok(())
}

#[test]
fn takes_the_front_and_shrinks(rt: HostRuntime) -> Result<(), Fail> {
    let mut list = Bounded::<u8, 3>::from_slice(&[1, 2, 3, 4], 0);
    assert_eq!(rt; list.as_slice(), [1, 2, 3].as_slice());
    let all = list.clone()?;
    list.retain(Not(2));
    assert_eq!(rt; list.as_slice(), [1, 3].as_slice());
    list.insert(9, 5)?;
    assert_eq!(rt; list.as_slice(), [1, 3, 5].as_slice());
    list.truncate(1);
    list.truncate(2);
    assert_eq!(rt; list.as_slice(), [1].as_slice());
    assert_eq!(rt; all.len(), 3);
    Ok(())
}
