//! Texts whose ids were made up.
use crate::{TwoIds, first_clash};
use arch_base::ObjectId;
use std::test::Fail;

/// Returns a number, and ids of these bytes.
fn ids(number: u32, old: u8, new: u8) -> TwoIds {
    TwoIds {
        number,
        old: ObjectId::Sha1([old; 20]),
        new: ObjectId::Sha256([new; 32]),
    }
}

/// The number of the first clash of some texts, by the bytes of their ids.
const CASES: [([(u8, u8); 3], Option<u32>); 4] = [
    ([(1, 1), (2, 2), (3, 3)], None),
    ([(1, 1), (1, 1), (2, 2)], None),
    ([(1, 1), (2, 1), (3, 1)], Some(2)),
    ([(1, 9), (2, 8), (3, 9)], Some(3)),
];

#[test]
fn the_later_of_two_texts_is_named(rt: HostRuntime) -> Result<(), Fail> {
    for (made, wanted) in &CASES {
        let texts = [
            ids(1, made[0].0, made[0].1),
            ids(2, made[1].0, made[1].1),
            ids(3, made[2].0, made[2].1),
        ];
        assert!(rt; first_clash(rt.alloc(), &texts)? == *wanted);
    }
    Ok(())
}
