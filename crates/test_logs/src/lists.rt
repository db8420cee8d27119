//! Lists that ask for refused memory once more.

/// Adds the item to the list. Where memory was refused twice the list is too short, and the test fails.
pub fn add<T: Copy + Drop>(list: &mut Vec<T>, item: T) {
    if list.push(item).is_err() {
        let _ = list.push(item);
    }
}
