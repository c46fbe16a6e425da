//! Rows for tests, whose keys are letters.
use arch_base::{Bytes, MessageNumbers, NoMemory, Texts};
use std::alloc::Global;

/// Returns a key for each letter.
pub(crate) fn letters(alloc: Global, letters: &[u8]) -> Result<Texts, NoMemory> {
    let mut keys = Texts::new(alloc);
    for letter in letters {
        let mut key = Bytes::new(alloc);
        key.push(*letter)?;
        keys.push(key)?;
    }
    Ok(keys)
}

/// Returns whether numbers are these.
pub(crate) fn are(numbers: &MessageNumbers, wanted: &[u32]) -> bool {
    numbers.as_slice() == wanted
}

/// Returns numbers in rising order.
pub(crate) fn sorted(numbers: MessageNumbers) -> MessageNumbers {
    let mut items = numbers.into_vec();
    items.sort_unstable();
    MessageNumbers::from_vec(items)
}
