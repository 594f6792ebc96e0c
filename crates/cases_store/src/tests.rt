// The last element of a `Filled`, and a store whose names stand beside its words.
use crate::filled::Filled;
use crate::store::Store;

#[test]
fn last_elements(rt: HostRuntime) {
    let mut few: Filled<u32, 3> = Filled::new();
    assert_eq!(rt; few.pop(), None);
    assert!(rt; few.extend([1, 2, 3].into_iter()).is_ok());
    assert!(rt; few.push(4).is_err());
    assert_eq!(rt; few.pop(), Some(3));
    assert_eq!(rt; few.as_slice(), [1, 2].as_slice());
    few.truncate(1);
    assert_eq!(rt; few.len(), 1);
}

#[test]
fn words_on_top(rt: HostRuntime) {
    let mut words = Filled::new();
    let mut named = Filled::new();
    let mut store = Store::new(&mut words, &mut named);
    assert!(rt; store.push(7).is_ok());
    assert!(rt; store.repeat(0, 3).is_ok());
    assert!(rt; store.shift(2, 5).is_ok());
    assert!(rt; store.shift(3, 5).is_err(), "no word is there");
    let part = store.part_from(1);
    assert_eq!(rt; store.words(part), [7, 1797].as_slice());
    assert!(rt; store.push_again(part).is_ok());
    assert!(rt; store.push_bytes_of(store.part_from(4)).is_ok());
    assert!(rt; store.extend(b"a".iter().copied()).is_ok());
    assert_eq!(rt;
        store.words(store.part_from(3)),
        [7, 1797, 5, 7, 0, 0, 97].as_slice()
    );
    assert!(rt; store.repeat(4, 0).is_ok());
    assert_eq!(rt; store.top(), 4);
}

#[test]
fn names_beside_the_words(rt: HostRuntime) {
    let mut words = Filled::new();
    let mut named = Filled::new();
    let mut store = Store::new(&mut words, &mut named);
    assert!(rt; store.extend([1u32, 2].into_iter()).is_ok());
    assert!(rt; store.define(b"first", store.part_from(0)).is_ok());
    assert!(rt; store.define(b"second", store.part_from(1)).is_ok());
    assert!(rt; store.find(b"third").is_err());
    let second = store.find(b"second").unwrap_or_default();
    assert_eq!(rt; store.words(second), [2].as_slice());
    assert!(rt; store.define(b"second", store.part_from(0)).is_ok());
    let second = store.find(b"second").unwrap_or_default();
    assert_eq!(rt;
        store.words(second),
        [1, 2].as_slice(),
        "the name that was last given"
    );
    store.truncate(1);
    assert_eq!(rt;
        store.words(second).len(),
        0,
        "no word is left above the top"
    );
}
